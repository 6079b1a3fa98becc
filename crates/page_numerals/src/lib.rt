// Numbers as text, written at the front of a lent slice.
#![tactic(auto)]

ghost use Rattle.std.specs.Prelude.{◌≡◌, ◌++◌, ◌+◌, ◌*◌, ◌≤◌, ◌<◌, ◌^◌, length, drop};
ghost use Rattle.page_numerals.specs.Digits.{digit, digits, width, decimal, hexadecimal};

// The byte of a digit.
#[tactic(auto, unfolding(crate::specs::Digits::digit))]
pub fn digit(d: u64) -> u8
    requires { d < 16 }
    ensures { result ≡ Rattle.page_numerals.specs.Digits.digit d }
{
    if d < 10 {
        (48 + d) as u8
    } else {
        (87 + d) as u8
    }
}

// The last `count` digits of n, at the front of the lent part.
pub fn put_digits(out: &mut [u8], base: u64, n: u64, count: usize)
    requires { (1 < base) × (base ≤ 16) × (count ≤ length out.old) }
    ensures { out.new ≡ digits base count n ++ drop count out.old }
{
    let mut m = n;
    for i in (0..count).rev() {
        out[i] = digit(m % base);
        m /= base;
    }
}

// How many digits n has in decimal.
pub fn width(n: u64) -> usize
    ensures { (result ≡ Rattle.page_numerals.specs.Digits.width 19 n) × (result ≤ 20) }
{
    n.checked_ilog10().map_or(1, |d| d as usize + 1)
}

// n in decimal at the front of the lent part; the answer is the number of bytes.
pub fn put_decimal(out: &mut [u8], n: u64) -> usize
    requires { 20 ≤ length out.old }
    ensures { (result ≡ length (decimal n)) × (result ≤ 20) × (out.new ≡ decimal n ++ drop result out.old) }
{
    let count = width(n);
    put_digits(out, 10, n, count);
    count
}

// A number of two 64-bit halves in 32 hexadecimal digits, at the front of the lent part.
pub fn put_hexadecimal(out: &mut [u8], high: u64, low: u64)
    requires { 32 ≤ length out.old }
    ensures { out.new ≡ hexadecimal (high * 2 ^ 64 + low) ++ drop 32 out.old }
{
    put_digits(out, 16, high, 16);
    put_digits(&mut out[16..], 16, low, 16);
}
