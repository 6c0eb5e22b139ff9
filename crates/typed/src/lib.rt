// What a person types: decimal numbers, and lists of them with commas between.
#![tactic(auto)]

ghost use Rattle.std.specs.Prelude.{◌≡◌, ◌≤◌, length, Decides, IfOk};
ghost use Rattle.std.specs.Str.Parse.{IsNumeral};
ghost use Rattle.typed.specs.Typed.{NumberOf, narrowed};

// Why a text is no number of 32 bits: it has another character than digits, or nothing; it is greater.
#[derive(Clone, Copy, PartialEq, Eq)]
pub enum NumberFault {
    NoNumber,
    TooGreat,
}

// Why a text is no list of numbers for which there is room: an item is no number of 32 bits; it has more of them.
#[derive(Clone, Copy, PartialEq, Eq)]
pub enum ListFault {
    NoList,
    TooLong,
}

// Whether a text has decimal digits and nothing else, and at least one.
fn is_number(text: &[u8]) -> bool
    ensures { Decides result (IsNumeral 10 text.now) }
{
    !text.is_empty() && text.iter().all(|byte| byte.is_ascii_digit())
}

// The number that a text is in decimal digits.
pub fn number_in(text: &[u8]) -> Result<u32, NumberFault>
    ensures { NumberOf text.now result }
{
    if !is_number(text) {
        return Err(NumberFault::NoNumber);
    }
    // Digits alone: now they can only be too many.
    match str::from_utf8(text) {
        Ok(digits) => digits.parse::<u32>().map_err(|_| NumberFault::TooGreat),
        Err(_) => Err(NumberFault::NoNumber),
    }
}

// The number in 32 bits, the greatest for one that has more; none, where the text is no number.
pub fn narrowed(number: Result<u32, NumberFault>) -> Option<u32>
    ensures { result ≡ narrowed number }
{
    match number {
        Ok(number) => Some(number),
        Err(NumberFault::TooGreat) => Some(u32::MAX),
        Err(NumberFault::NoNumber) => None,
    }
}

// Puts the numbers of a text, with commas between them, at the start of the list, as far as nothing is wrong, and gives how many there are.
pub fn list_in(text: &[u8], list: &mut [u32]) -> Result<usize, ListFault>
    ensures { IfOk result (λ n. n ≤ length list.old) }
{
    let mut count = 0;
    for item in text.split(|byte| *byte == b',') {
        let Ok(number) = number_in(item) else {
            return Err(ListFault::NoList);
        };
        if list.len() <= count {
            return Err(ListFault::TooLong);
        }
        list[count] = number;
        count += 1;
    }
    Ok(count)
}
