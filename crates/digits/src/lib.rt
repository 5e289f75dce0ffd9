// Decimal digits: tested, read as a number, and written.
#![tactic(auto)]

ghost use Rattle.std.specs.Prelude.{◌≡◌, true, ◌+◌, ◌^◌, ◌≤◌, ◌<◌, length};
ghost use Rattle.rules.specs.Numerals.{value, numeral, are_digits};

// Whether every byte is a digit.
pub fn are_digits(s: &[u8]) -> bool
    ensures { result ≡ are_digits 10 48 s.now }
{
    s.iter().all(|b| b.is_ascii_digit())
}

// The number that digits say.
#[tactic(auto, using(crate::proofs::Laws::digit_low, crate::proofs::Laws::digits_rest, crate::proofs::Laws::said_turn, crate::proofs::Laws::said_end, rules::proofs::Numerals::value_below))]
pub fn value_of(digits: &[u8]) -> u64
    requires digits { are_digits 10 48 digits.now ≡ true }
    requires few { length digits.now ≤ 19 }
    ensures value { result ≡ value 10 48 digits.now }
    ensures below { result < 10 ^ length digits.now }
{
    let mut n = 0;
    for d in digits {
        n = n * 10 + u64::from(*d - b'0');
    }
    n
}

// A number in `N` digits, the last one first found.
pub fn digits_of<const N: usize>(n: u64) -> [u8; N]
    requires { n < 10 ^ N }
    ensures { result ≡ numeral 10 48 N n }
{
    let mut digits = [b'0'; N];
    let mut rest = n;
    for i in (0..N).rev() {
        digits[i] = byte_of(rest % 10);
        rest /= 10;
    }
    digits
}

// A number below ten as its digit.
pub fn byte_of(d: u64) -> u8
    requires { d < 10 }
    ensures { result ≡ d + 48 }
{
    d as u8 + b'0'
}
