// The codes of a placement as a number in base 4, channel 0 leading, and as a line of digits.
ghost use Rattle.std.specs.Prelude.{◌≡◌, ◌^◌, ◌≤◌};
ghost use Rattle.stored.specs.Form.{padded};
ghost use Rattle.placements.specs.Listing.{codes_of, line_of};

// 4 to the power n.
pub fn power(n: usize) -> usize
    requires { n ≤ 6 }
    ensures { result ≡ 4 ^ n }
{
    4usize.pow(n as u32)
}

// The codes of number k on n channels, and 0 for the rest of six.
pub fn codes_of(n: usize, k: usize) -> [u8; 6]
    requires { n ≤ 6 }
    ensures { result ≡ padded 0 6 (codes_of n k) }
{
    let mut codes = [0u8; 6];
    let mut rest = k;
    for j in (0..n).rev() {
        codes[j] = (rest % 4) as u8;
        rest /= 4;
    }
    codes
}

// The line of number k on n channels: n digits and the line's end.
pub fn line_of(n: usize, k: u16) -> [u8; 7]
    requires { n ≤ 6 }
    ensures { result ≡ padded 0 7 (line_of n k) }
{
    let codes = codes_of(n, k as usize);
    let mut line = [0u8; 7];
    for i in 0..n {
        line[i] = b'0' + codes[i];
    }
    line[n] = b'\n';
    line
}
