// The checks of a complex order: 22, 23 and 24, and the first of them that applies. Tags and unit counts are those of
// the legs in the first walk's sequence; no check asks for the legs' root.
#![tactic(auto)]

ghost use Rattle.std.specs.Prelude.{◌≡◌, List, true, false, ℕ, ◌≤◌, length};
ghost use Rattle.rules.specs.declared.Leg.{Leg};
ghost use Rattle.rules.specs.declared.Market.{Market};
ghost use Rattle.rules.specs.Order.{is_complex};
ghost use Rattle.rules.specs.Class.{shape_of};
ghost use Rattle.rules.specs.Checks.{debit_credit, allowance, has_maximum, maximum_value};
ghost use Rattle.rules.specs.Market.{settings_hold};
ghost use Rattle.rules.specs.Numbers.{rejection};
ghost use Rattle.rules.specs.Valid.{ComplexOrder};
ghost use Rattle.answers.specs.Answers.{number_of, check_number, shape_number};
ghost use Rattle.keys.specs.Tags.{legs_from};

use answers::{Check, Class, Shape, fail_if};
use buy_buy::buy_buy;
use rules::{Settings, Terms};
use strikes::maximum_of;
use terms::{has_shares, is_negative, is_positive};

// Check 23, of a complex order: only its class and its terms decide. It is not for orders with shares.
#[tactic(auto, unfolding(rules::specs::Checks::debit_credit, rules::specs::Lists::every))]
fn debit_credit(t: Terms, class: u64) -> bool
    ensures { (us : List Leg) → is_complex t us ≡ true → result ≡ debit_credit t us class }
{
    let wrong_sign = if class == u64::from(Class::Debit) {
        t.kind == 0 && is_negative(t.price)
    } else {
        class == u64::from(Class::Credit) && is_positive(t.price)
    };
    !has_shares(t) && wrong_sign
}

// A: the percentage of M, raised to the preset minimum, then lowered to the preset maximum.
#[tactic(auto, using(laws::proofs::Bounds::settings_bounds, crate::proofs::Laws::share_bound), unfolding(rules::specs::Checks::allowance))]
fn allowance(st: Settings, m: u64) -> u64
    requires { (settings_hold st ≡ true) × (m ≤ 99999999) }
    ensures { (result ≡ allowance st m) × (result ≤ 1000000) }
{
    let share = m * st.percentage / 10000;
    let raised = share.max(st.presetminimum.0);
    raised.min(st.presetmaximum.0)
}

// The shapes that have a maximum value.
fn has_maximum(shape: Shape) -> bool
    ensures { result ≡ has_maximum (shape_number shape) }
{
    matches!(shape, Shape::Vertical | Shape::TrueButterfly | Shape::Box)
}

// Check 24, which is not for orders with shares. It asks for the unit counts only in the shape.
fn maximum_value(st: Settings, t: Terms, tags: &[u64], shape: Shape) -> bool
    requires { settings_hold st ≡ true }
    ensures { (root : ℕ) (units : List ℕ) → length units ≡ length tags.now
        → shape_number shape ≡ shape_of (legs_from root false tags.now units)
        → result ≡ maximum_value st t (legs_from root false tags.now units) }
{
    if has_shares(t) || !has_maximum(shape) {
        return false;
    }
    let m = maximum_of(tags);
    m + allowance(st, m) < t.price.size.0
}

// The first check that applies. The others are of simple orders. A `class` that is no class's number passes 23.
pub fn rejection(
    st: Settings,
    t: Terms,
    tags: &[u64],
    units: &[u64],
    class: u64,
    shape: Shape,
) -> Result<(), Check>
    requires { (length tags.now ≡ length units.now)
        × ComplexOrder st t (legs_from 0 false tags.now units.now)
        × (shape_number shape ≡ shape_of (legs_from 0 false tags.now units.now)) }
    ensures { (root : ℕ) (m : Market)
        → number_of check_number result ≡ rejection st m t (legs_from root false tags.now units.now) class }
{
    fail_if(
        st.check22 != 0 && buy_buy(st, t, tags, units),
        Check::BuyBuy,
    )?;
    fail_if(
        st.check23 != 0 && debit_credit(t, class),
        Check::DebitCredit,
    )?;
    fail_if(
        st.check24 != 0 && maximum_value(st, t, tags, shape),
        Check::MaximumValue,
    )
}
