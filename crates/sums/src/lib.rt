// The sum that ends a message. Document 02, S-1.
#![tactic(auto)]

ghost use Rattle.std.specs.Prelude.{◌≡◌, ◌%◌, ◌≤◌, ◌<◌, length, take};
ghost use Rattle.rules.specs.Lists.{total, same_numbers};
ghost use Rattle.rules.specs.Numerals.{numeral};

use digits::digits_of;

// The sum modulo 256 of the bytes before the place `to`.
pub fn sum_before(message: &[u8], to: usize) -> u64
    requires { to ≤ length message.now }
    ensures { (result ≡ total (take to message.now) % 256) × (result < 256) }
{
    let bytes = &message[..to];
    let sum = bytes.iter().fold(0u8, |sum, b| sum.wrapping_add(*b));
    u64::from(sum)
}

// Whether a value is the sum in three digits.
#[tactic(auto, using(number_values::proofs::Laws::same_bytes))]
pub fn is_sum(v: &[u8], sum: u64) -> bool
    requires { sum < 256 }
    ensures { result ≡ same_numbers v.now (numeral 10 48 3 sum) }
{
    v == digits_of::<3>(sum).as_slice()
}
