// Values of a message's fields that are one byte, or a number. Document 02, S-1.
#![tactic(auto)]

ghost use Rattle.std.specs.Prelude.{◌≡◌, true, [], ◌∷◌, ◌≤◌, ◌<◌, length};
ghost use Rattle.rules.specs.Lists.{same_numbers};
ghost use Rattle.rules.specs.Fix.{one, leading_digits, is_number, number_of, number_said};

use digits::{are_digits, value_of};

// Whether the value is this byte alone.
#[tactic(auto, using(crate::proofs::Laws::same_bytes))]
pub fn is_byte(v: &[u8], b: u8) -> bool
    ensures { result ≡ same_numbers v.now (b ∷ []) }
{
    v == [b].as_slice()
}

// Whether the value is the digit 1.
pub fn is_one(v: &[u8]) -> bool
    ensures { result ≡ same_numbers v.now one }
{
    is_byte(v, b'1')
}

// How many digits stand at the front.
pub fn leading_digits(v: &[u8]) -> usize
    ensures { (result ≡ leading_digits v.now) × (result ≤ length v.now) }
{
    let end = v.iter().position(|b| !b.is_ascii_digit());
    end.unwrap_or(v.len())
}

// Whether the value is a number: 1 to 15 digits.
#[tactic(auto, unfolding(rules::specs::Fix::is_number))]
pub fn is_number(v: &[u8]) -> bool
    ensures { result ≡ is_number v.now }
{
    1 <= v.len() && v.len() <= 15 && are_digits(v)
}

// The number that a value says.
#[tactic(auto, using(crate::proofs::Laws::number_digits, crate::proofs::Laws::number_few, crate::proofs::Laws::number_small))]
pub fn number_of(v: &[u8]) -> u64
    requires { is_number v.now ≡ true }
    ensures { (result ≡ number_of v.now) × (result < 1000000000000000) }
{
    value_of(v)
}

// The number of groups that the value of 555 says: none where it is no number.
#[tactic(auto, unfolding(rules::specs::Fix::number_said))]
pub fn number_said(v: &[u8]) -> u64
    ensures { (result ≡ number_said v.now) × (result < 1000000000000000) }
{
    if is_number(v) { number_of(v) } else { 0 }
}
