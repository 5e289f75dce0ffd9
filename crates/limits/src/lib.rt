// The limits of settings and market, in the definition's sequence, and the two within them.
#![tactic(auto)]

ghost use Rattle.std.specs.Prelude.{◌≡◌, [], ◌∷◌, true, not, IfOk};
ghost use Rattle.rules.specs.Market.{settings_hold, market_holds};
ghost use Rattle.rules.specs.Numbers.{first_of};
ghost use Rattle.answers.specs.Answers.{refusal_number, number_of};

use amounts::within;
use answers::{Refusal, fail_if};
use rules::{Market, Settings};

// Settings and market within their limits: the checks take them so, and no sum or product of theirs overflows.
#[derive(Clone, Copy)]
pub struct Held {
    pub settings: Settings,
    pub market: Market,
    pub ghost settings_within: { settings_hold settings ≡ true },
    pub ghost market_within: { market_holds market ≡ true },
}

#[tactic(auto, unfolding(rules::specs::Market::settings_hold, rules::specs::Lists::every))]
pub fn settings_hold(st: Settings) -> bool
    ensures { result ≡ settings_hold st }
{
    within(1, 1000, st.lowtick.0)
        && within(1, 1000, st.hightick.0)
        && within(1, 1000, st.increment.0)
        && within(2, 1000, st.atd0.0)
        && within(2, 1000, st.atd1.0)
        && within(2, 1000, st.atd2.0)
        && within(2, 1000, st.atd3.0)
        && within(0, 10000, st.percentage)
        && within(0, 1000000, st.presetminimum.0)
        && within(0, 1000000, st.presetmaximum.0)
        && st.presetminimum.0 <= st.presetmaximum.0
        && within(0, 1000, st.setticks.0)
}

#[tactic(auto, unfolding(rules::specs::Market::market_holds, rules::specs::Lists::every))]
pub fn market_holds(m: Market) -> bool
    ensures { result ≡ market_holds m }
{
    within(0, 2, m.phase)
        && within(0, 1000000000, m.underlying.0)
        && within(0, 1000000000, m.nbb.0)
        && within(0, 1000000000, m.nbo.0)
        && within(0, 1000000000, m.ownbid.0)
        && within(0, 1000000000, m.ownoffer.0)
        && within(0, 1000000000, m.close.0)
}

// Refusal 9 comes before 10.
#[tactic(auto, unfolding(rules::specs::Numbers::first_of))]
pub fn within_limits(st: Settings, m: Market) -> Result<Held, Refusal>
    ensures number { number_of refusal_number result ≡ first_of ((not (settings_hold st), 9) ∷ (not (market_holds m), 10) ∷ []) }
    ensures kept { IfOk result (λ h. (h.settings ≡ st) × (h.market ≡ m)) }
{
    fail_if(!settings_hold(st), Refusal::BadSetting)?;
    fail_if(!market_holds(m), Refusal::BadMarket)?;
    Ok(Held {
        settings: st,
        market: m,
    })
}
