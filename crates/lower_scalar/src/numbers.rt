//! Powers of two.

ghost use Rattle.std.specs.Prelude.{◌≡◌, ◌≤◌, ◌<◌, ◌-◌, ◌/◌, ◌^◌, ◌+ℤ◌, ◌≤ℤ◌, pos};
ghost use Rattle.lower_scalar.specs.Shapes.{top};

/// `2^n`.
pub fn power(n: u32) -> u64
    requires { n ≤ 63 }
    ensures { result ≡ 2 ^ n }
{
    1 << n
}

/// `2^n - 1`.
pub fn ones(n: u32) -> u64
    requires some { 1 ≤ n }
    requires most { n ≤ 64 }
    ensures { result ≡ 2 ^ n - 1 }
{
    u64::MAX >> (64 - n)
}

/// The greatest number of a signedness and a word length in bits.
pub fn top(signed: bool, word: u32) -> u64
    requires some { 1 ≤ word }
    requires most { word ≤ 64 }
    ensures { result ≡ top signed word }
{
    if signed {
        power(word - 1) - 1
    } else {
        ones(word)
    }
}

/// `n / 2^by`, rounded down.
pub fn shifted(n: u64, by: u32) -> u64
    ensures { result ≡ n / 2 ^ by }
{
    if by < 64 { n >> by } else { 0 }
}

/// How far one fraction length is above another that isn't greater, in bits.
pub fn gap(high: i32, low: i32) -> u32
    requires { low ≤ℤ high }
    ensures { high ≡ low +ℤ pos result }
{
    (i64::from(high) - i64::from(low)) as u32
}
