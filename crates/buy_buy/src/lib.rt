// Check 22, of the unit legs of a complex order.
#![tactic(auto)]

ghost use Rattle.std.specs.Prelude.{◌≡◌, false, ℕ, ◌<◌, ◌^◌, length, sum};
ghost use Rattle.std.specs.List.{list_all};
ghost use Rattle.rules.specs.Lists.{same_bool};
ghost use Rattle.rules.specs.Checks.{is_below, shares_on, buy_buy};
ghost use Rattle.rules.specs.Valid.{ComplexOrder};
ghost use Rattle.keys.specs.Tags.{is_bought, legs_from};

use keys::is_bought;
use rules::{Price, Settings, Terms};
use terms::{has_shares, is_negative, is_positive};

// Every leg is on this side: bought, or sold.
#[tactic(auto, using(rules::proofs::Tests::beq_same))]
fn all_on(tags: &[u64], side: bool) -> bool
    ensures { result ≡ list_all (λ t. same_bool side (is_bought t)) tags.now }
{
    tags.iter().all(|tag| side == is_bought(*tag))
}

// The sum of unit count sizes.
fn sizes(units: &[u64]) -> u64
    requires { sum units.now < 2 ^ 64 }
    ensures { result ≡ sum units.now }
{
    units.iter().sum()
}

// The amount paid, or received, is below `n`. One of the other sign is below every sum.
#[tactic(auto, unfolding(rules::specs::Checks::is_below))]
fn is_below(bought: bool, p: Price, n: u64) -> bool
    ensures { result ≡ is_below bought p n }
{
    let other_sign = if bought {
        is_negative(p)
    } else {
        is_positive(p)
    };
    other_sign || p.size.0 < n
}

// The shares, if there are any, are on this side.
#[tactic(auto, using(rules::proofs::Tests::beq_same), unfolding(rules::specs::Checks::shares_on))]
fn shares_on(side: bool, t: Terms) -> bool
    ensures { result ≡ shares_on side t }
{
    !has_shares(t) || side == t.shares.bought
}

// Check 22. Legs that are all of one side are of the first leg's. No check asks for the legs' root.
pub fn buy_buy(st: Settings, t: Terms, tags: &[u64], units: &[u64]) -> bool
    requires { (length tags.now ≡ length units.now) × ComplexOrder st t (legs_from 0 false tags.now units.now) }
    ensures { (root : ℕ) → result ≡ buy_buy st t (legs_from root false tags.now units.now) }
{
    let side = is_bought(tags[0]);
    t.kind == 0
        && shares_on(side, t)
        && all_on(tags, side)
        && is_below(side, t.price, sizes(units) * st.increment.0)
}
