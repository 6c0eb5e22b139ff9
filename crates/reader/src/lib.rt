// Bits of a byte slice, most significant first, and a reader over them.
#![tactic(auto)]

ghost use Rattle.std.specs.Prelude.{◌≡◌, ◌+◌, ◌<◌, ◌≤◌};
ghost use Rattle.reader.specs.Bits.{bit_at, field_at};
ghost use Rattle.reader.specs.Steps.{step_of, step_at};

// A field of a form: its value and the bit position after it.
#[derive(Clone, Copy, PartialEq, Eq)]
pub struct Field {
    pub value: u32,
    pub end: usize,
}

// A reader over a lent form, with its bit position.
#[derive(Clone, Copy)]
pub struct Reader<'a> {
    pub form: &'a [u8],
    pub at: usize,
}

impl<'a> Reader<'a> {
    // A reader at the form's beginning.
    pub fn new(form: &'a [u8]) -> Reader<'a>
        ensures { (result.form ≡ form.entry) × (result.at ≡ 0) }
    {
        Reader { form, at: 0 }
    }

    // The reader at another position.
    pub fn moved(self, at: usize) -> Reader<'a>
        ensures { (result.form ≡ self.entry.form) × (result.at ≡ at) }
    {
        Reader {
            form: self.form,
            at,
        }
    }

    // The field of width bits at the reader's position; none where the bytes have no such field.
    pub fn field(self, width: usize) -> Option<Field>
        ensures { result ≡ step_at self.entry.form.now self.entry.at width }
    {
        step_at(self.form, self.at, width)
    }
}

// The field of width bits at a position of a form, through a reader: for callers that hold a slice and a number.
pub fn step_from(form: &[u8], at: usize, width: usize) -> Option<Field>
    ensures { result ≡ step_at form.now at width }
{
    let r = Reader::new(form).moved(at);
    r.field(width)
}

// The reader's work on a slice and a number. It serves widths of 1 to 32 at positions up to 65,536, which no form reaches; there is none of the rest.
#[tactic(auto, unfolding(crate::specs::Steps::step_at))]
fn step_at(form: &[u8], at: usize, width: usize) -> Option<Field>
    ensures { result ≡ step_at form.now at width }
{
    if at <= 65536 && 0 < width && width <= 32 {
        scan_field(form, at, width)
    } else {
        None
    }
}

// The number that the width bits from bit at on make.
fn scan_field(form: &[u8], at: usize, width: usize) -> Option<Field>
    requires { (at ≤ 65536) × (0 < width) × (width ≤ 32) }
    ensures { result ≡ step_of (field_at form.now at width) (at + width) }
{
    let mut value: u32 = 0;
    for i in at..at + width {
        let byte = i / 8;
        if form.len() <= byte {
            return None;
        }
        value = 2 * value + bit(form[byte], i % 8);
    }
    Some(Field {
        value,
        end: at + width,
    })
}

// Bit k of a byte.
#[tactic(auto, using(crate::proofs::Bits::bit_shift))]
pub fn bit(b: u8, k: usize) -> u32
    requires { k < 8 }
    ensures { result ≡ bit_at b k }
{
    ((b as u32) >> (7 - k)) % 2
}
