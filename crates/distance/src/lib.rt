// The distance from a reference that is set for it: how many ticks, how large a tick, and the ticks as a price.
#![tactic(auto)]

ghost use Rattle.std.specs.Prelude.{◌≡◌, ◌≤◌};
ghost use Rattle.rules.specs.Market.{acceptable_ticks, tick_at};
ghost use Rattle.rules.specs.Quantities.{distance};

use rules::{Mills, Settings, Ticks};

// The acceptable tick distance of the reference's band.
#[tactic(auto, unfolding(rules::specs::Market::acceptable_ticks))]
pub fn acceptable_ticks(st: Settings, r: Mills) -> Ticks
    ensures { result ≡ acceptable_ticks st r }
{
    if r.0 < 1000 {
        st.atd0
    } else if r.0 < 3000 {
        st.atd1
    } else if r.0 < 10000 {
        st.atd2
    } else {
        st.atd3
    }
}

#[tactic(auto, unfolding(rules::specs::Market::tick_at))]
pub fn tick_at(st: Settings, r: Mills) -> Mills
    ensures { result ≡ tick_at st r }
{
    if r.0 < 3000 { st.lowtick } else { st.hightick }
}

// A distance as a price. This is the only place where ticks become mills; the bounds are those of the settings.
#[tactic(auto, unfolding(rules::specs::Quantities::distance))]
pub fn distance(ticks: Ticks, tick: Mills) -> Mills
    requires { (ticks.0 ≤ 1000) × (tick.0 ≤ 1000) }
    ensures { result ≡ distance ticks tick }
{
    Mills(ticks.0 * tick.0)
}
