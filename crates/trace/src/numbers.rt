// Numbers in bytes, 4 to a number, most significant first.
ghost use Rattle.std.specs.Prelude.{◌≡◌, ◌+◌, ◌*◌, ◌≤◌, ◌<◌, [], length, get_or};
ghost use Rattle.trace.specs.Numbers.{numbers_of, given};

// A number's bytes.
const NUMBER_BYTES: usize = 4;

// Number i of the bytes.
pub fn number_at(bytes: &[u8], i: usize) -> u32
    requires { 4 * i + 4 ≤ length bytes.now }
    ensures { result ≡ get_or (numbers_of bytes.now) i 0 }
{
    let at = NUMBER_BYTES * i;
    u32::from_be_bytes([bytes[at], bytes[at + 1], bytes[at + 2], bytes[at + 3]])
}

// Numbers given as bytes and then as a list: callers give one of the two and leave the other empty.
#[derive(Clone, Copy)]
pub struct Numbers<'a> {
    pub bytes: &'a [u8],
    pub list: &'a [u32],
}

impl<'a> Numbers<'a> {
    // Those that the bytes make.
    pub fn of_bytes(bytes: &'a [u8]) -> Numbers<'a>
        ensures bytes { result.bytes ≡ bytes.entry }
        ensures list { result.list.now ≡ [] }
    {
        Numbers { bytes, list: &[] }
    }

    // Those of the list.
    pub fn of_list(list: &'a [u32]) -> Numbers<'a>
        ensures bytes { result.bytes.now ≡ [] }
        ensures list { result.list ≡ list.entry }
    {
        Numbers { bytes: &[], list }
    }

    // How many there are.
    pub fn len(self) -> usize
        ensures { result ≡ length (given self.entry.bytes.now self.entry.list.now) }
    {
        self.bytes.len() / NUMBER_BYTES + self.list.len()
    }

    // Number i of them.
    pub fn at(self, i: usize) -> u32
        requires { i < length (given self.bytes.now self.list.now) }
        ensures { result ≡ get_or (given self.entry.bytes.now self.entry.list.now) i 0 }
    {
        let n = self.bytes.len() / NUMBER_BYTES;
        if i < n {
            number_at(self.bytes, i)
        } else {
            self.list[i - n]
        }
    }
}
