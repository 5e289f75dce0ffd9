// The forms of the values of a message's fields, and the price that one says. Document 02, S-1.
#![tactic(auto)]

ghost use Rattle.std.specs.Prelude.{◌≡◌, true, ◌-◌, ◌*◌, ◌^◌, ◌≤◌, ◌<◌, length};
ghost use Rattle.rules.specs.Order.{price_of};
ghost use Rattle.rules.specs.Fix.{is_one_or_two, is_number, number_of, has_minus, unsigned};
ghost use Rattle.rules.specs.Fix.{are_decimals, is_amount, is_price, has_form, mills_of, price_said};

use number_values::{is_byte, is_number, is_one, leading_digits, number_of};
use rules::{Mills, Price};

fn is_one_or_two(v: &[u8]) -> bool
    ensures { result ≡ is_one_or_two v.now }
{
    is_one(v) || is_byte(v, b'2')
}

// Whether the bytes are none, or a point and one to three digits.
#[tactic(auto, using(crate::proofs::Laws::rest_of, crate::proofs::Laws::no_decimals, crate::proofs::Laws::no_point_first, crate::proofs::Laws::long_decimals, crate::proofs::Laws::decimals))]
fn are_decimals(v: &[u8]) -> bool
    ensures { result ≡ are_decimals v.now }
{
    match v {
        [] => true,
        [b'.', digits @ ..] => digits.len() <= 3 && is_number(digits),
        _ => false,
    }
}

// Whether the bytes are dollars without a sign: 1 to 15 digits, and perhaps decimals.
#[tactic(auto, unfolding(rules::specs::Fix::is_amount), using(crate::proofs::Laws::rest_of))]
fn is_amount(v: &[u8]) -> bool
    ensures { result ≡ is_amount v.now }
{
    let k = leading_digits(v);
    1 <= k && k <= 15 && are_decimals(&v[k..])
}

// Whether a value has a minus, and what stands behind it.
fn signed(v: &[u8]) -> (bool, &[u8])
    ensures { (result.0 ≡ has_minus v.now) × (result.1.now ≡ unsigned v.now) }
{
    match v {
        [b'-', amount @ ..] => (true, amount),
        _ => (false, v),
    }
}

// Whether the value is a price: dollars, with a minus or none.
#[tactic(auto, unfolding(rules::specs::Fix::is_price))]
fn is_price(v: &[u8]) -> bool
    ensures { result ≡ is_price v.now }
{
    is_amount(signed(v).1)
}

// Whether a value has the form of its tag. Most tags are further ones, which have none.
#[tactic(auto, unfolding(rules::specs::Fix::has_form))]
pub fn has_form(tag: u64, v: &[u8]) -> bool
    ensures { result ≡ has_form tag v.now }
{
    match tag {
        40 | 624 => is_one_or_two(v),
        44 => is_price(v),
        555 | 623 => is_number(v),
        600 => v.len() == 21,
        _ => true,
    }
}

// The mills that one to three digits behind the point say.
fn decimal_mills(v: &[u8]) -> u64
    requires { (is_number v.now ≡ true) × (length v.now ≤ 3) }
    ensures { (result ≡ number_of v.now * 10 ^ (3 - length v.now)) × (result < 1000) }
{
    let said = number_of(v);
    match v.len() {
        1 => said * 100,
        2 => said * 10,
        _ => said,
    }
}

// The mills that dollars without a sign say.
#[tactic(auto, unfolding(rules::specs::Fix::mills_of), using(crate::proofs::Laws::whole_digits, crate::proofs::Laws::no_point, crate::proofs::Laws::rest_of, number_values::proofs::Laws::leading_few))]
fn mills_of(v: &[u8]) -> u64
    requires { is_amount v.now ≡ true }
    ensures { (result ≡ mills_of v.now) × (result < 1000000000000000000) }
{
    let k = leading_digits(v);
    let whole = number_of(&v[..k]) * 1000;
    if k == v.len() {
        return whole;
    }
    whole + decimal_mills(&v[k + 1..])
}

// The price that the value of 44 says. A minus before zero says the price 0.
#[tactic(auto, unfolding(rules::specs::Fix::is_price, rules::specs::Fix::price_said, rules::specs::Order::price_of), using(crate::proofs::Laws::negative))]
pub fn price_said(v: &[u8]) -> Price
    requires { is_price v.now ≡ true }
    ensures { result ≡ price_of (price_said v.now) }
{
    let (minus, amount) = signed(v);
    let size = mills_of(amount);
    Price {
        received: minus && 0 < size,
        size: Mills(size),
    }
}
