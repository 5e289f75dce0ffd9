// The checks of a simple order: 20, 21 and 25, and the first of them that applies.
#![tactic(auto)]

ghost use Rattle.std.specs.Prelude.{◌≡◌, [], ◌∷◌, true, ℕ, ◌≤◌, Bool};
ghost use Rattle.rules.specs.declared.Mills.{Mills};
ghost use Rattle.rules.specs.declared.Series.{Series};
ghost use Rattle.rules.specs.Order.{is_yes, is_simple};
ghost use Rattle.rules.specs.Checks.{put_test, call_test, simple_buy};
ghost use Rattle.rules.specs.Market.{limit_distance, is_too_far, tick_distance};
ghost use Rattle.rules.specs.Numbers.{rejection};
ghost use Rattle.answers.specs.Answers.{number_of, check_number};

use answers::{Check, fail_if};
use distance::{acceptable_ticks, distance, tick_at};
use limits::Held;
use put_call::{call_test, put_test};
use reference::reference;
use rules::{Leg, Mills, Terms};
use sides::is_beyond;

// A buy that 20 and 21 do not skip, as they do market orders in the opening process, and whose price passes their test.
#[tactic(auto, unfolding(rules::specs::Checks::simple_buy, rules::specs::Lists::every, rules::specs::Lists::all))]
fn simple_buy(t: Terms, u: Leg, passed: bool) -> bool
    requires { is_simple t (u ∷ []) ≡ true }
    ensures { (test : Series → Mills → Bool) → passed ≡ test u.series t.price.size → result ≡ simple_buy test t (u ∷ []) }
{
    let skipped = t.kind != 0 && t.opening != 0;
    !skipped && !t.price.received && u.bought && passed
}

// Check 20.
fn is_put_rejected(t: Terms, u: Leg) -> bool
    requires { is_simple t (u ∷ []) ≡ true }
    ensures { result ≡ simple_buy put_test t (u ∷ []) }
{
    simple_buy(t, u, put_test(u.series, t.price.size))
}

// Check 21.
fn is_call_rejected(h: &Held, t: Terms, u: Leg) -> bool
    requires { is_simple t (u ∷ []) ≡ true }
    ensures { result ≡ simple_buy (call_test (is_yes h.now.settings.adjusted) h.now.market) t (u ∷ []) }
{
    let passed = call_test(h.settings.adjusted != 0, h.market, u.series, t.price.size);
    simple_buy(t, u, passed)
}

// D: the ticks of the reference's band as mills.
#[tactic(auto, using(laws::proofs::Bounds::acceptable_bound, laws::proofs::Bounds::tick_bound, laws::proofs::Bounds::distance_bound), unfolding(rules::specs::Market::limit_distance))]
fn limit_distance(h: &Held, r: Mills) -> Mills
    ensures { (result ≡ limit_distance h.now.settings r) × (result.0 ≤ 1000000) }
{
    distance(acceptable_ticks(h.settings, r), tick_at(h.settings, r))
}

#[tactic(auto, using(laws::proofs::Bounds::reference_bound), unfolding(rules::specs::Market::is_too_far))]
fn is_too_far(h: &Held, t: Terms, u: Leg) -> bool
    ensures { result ≡ is_too_far h.now.settings h.now.market t u }
{
    let r = reference(u.bought, h.market);
    let d = limit_distance(h, r);
    r.0 != 0 && is_beyond(u.bought, t.price.size, r, d)
}

// Check 25.
#[tactic(auto, unfolding(rules::specs::Market::tick_distance, rules::specs::Lists::every, rules::specs::Lists::all))]
fn tick_distance(h: &Held, t: Terms, u: Leg) -> bool
    requires { is_simple t (u ∷ []) ≡ true }
    ensures { result ≡ tick_distance h.now.settings h.now.market t (u ∷ []) }
{
    t.kind == 0 && t.stop == 0 && t.manual == 0 && is_too_far(h, t, u)
}

// The first check that applies. The others are of complex orders.
#[tactic(auto, unfolding(rules::specs::Numbers::rejection, rules::specs::Numbers::first_of))]
pub fn rejection(h: &Held, t: Terms, u: Leg) -> Result<(), Check>
    requires { is_simple t (u ∷ []) ≡ true }
    ensures { (class : ℕ) → number_of check_number result ≡ rejection h.now.settings h.now.market t (u ∷ []) class }
{
    let st = &h.settings;
    fail_if(st.check20 != 0 && is_put_rejected(t, u), Check::Put)?;
    fail_if(st.check21 != 0 && is_call_rejected(h, t, u), Check::Call)?;
    fail_if(
        st.check25 != 0 && tick_distance(h, t, u),
        Check::TickDistance,
    )
}
