// Cases for the programs that the host tests try: files whose numbers have 4 bytes, most significant first. A case begins with how many bytes its form has, how many words and how many ends
// there are; then come the form, the words, the ends, and what the program makes of the rest.
#![tactic(auto)]

ghost use Rattle.std.specs.Prelude.{◌≤◌, length, IfSome};
ghost use Rattle.cases.specs.Parts.{IsParted};

use trace::numbers::number_at;

// The most words and ends of a case.
pub const MOST_WORDS: usize = 256;

pub const MOST_ENDS: usize = 64;

// The bytes of the three numbers at its beginning, behind which the form lies, and those of a number.
const HEADER: usize = 12;

const NUMBER_BYTES: usize = 4;

// The parts of a file that is a case, one behind the other.
#[derive(Clone, Copy)]
pub struct Case<'a> {
    pub form: &'a [u8],
    pub words: &'a [u8],
    pub ends: &'a [u8],
    pub rest: &'a [u8],
}

// The parts of a file, or none where it is no case.
pub fn read_case(file: &[u8]) -> Option<Case>
    ensures { IfSome result (λ c. IsParted file.now c) }
{
    let (head, parts) = file.split_at_checked(HEADER)?;
    let words = number_at(head, 1) as usize;
    let ends = number_at(head, 2) as usize;
    if MOST_WORDS < words || MOST_ENDS < ends {
        return None;
    }
    let (form, parts) = parts.split_at_checked(number_at(head, 0) as usize)?;
    let (words, parts) = parts.split_at_checked(NUMBER_BYTES * words)?;
    let (ends, rest) = parts.split_at_checked(NUMBER_BYTES * ends)?;
    Some(Case {
        form,
        words,
        ends,
        rest,
    })
}

// Puts the numbers that bytes hold at the start of the list, as far as it has room, and gives how many there are.
pub fn put_numbers(bytes: &[u8], list: &mut [u32]) -> usize
    ensures { result ≤ length list.new }
{
    let count = list.len().min(bytes.len() / NUMBER_BYTES);
    for i in 0..count {
        list[i] = number_at(bytes, i);
    }
    count
}
