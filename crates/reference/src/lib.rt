// The reference price of a single option.
#![tactic(auto)]

ghost use Rattle.std.specs.Prelude.{◌≡◌};
ghost use Rattle.rules.specs.Market.{is_missing, is_unusable, elsewhere_reference, reference};

use rules::{Market, Mills};
use sides::{at_or_past, national, own};

fn is_missing(x: Mills) -> bool
    ensures { result ≡ is_missing x }
{
    x.0 == 0
}

// Locked, crossed or unavailable.
#[tactic(auto, unfolding(rules::specs::Market::is_unusable))]
pub fn is_unusable(m: Market) -> bool
    ensures { result ≡ is_unusable m }
{
    let no_bid = is_missing(m.nbb);
    let no_offer = is_missing(m.nbo);
    let present = !no_bid && !no_offer;
    let locked = present && m.nbb.0 == m.nbo.0;
    let crossed = present && m.nbo.0 < m.nbb.0;
    locked || crossed || no_bid && no_offer
}

// Before the opening, with the option open elsewhere. `best` is the price that the order meets, `opposite` that of its
// own side.
#[tactic(auto, unfolding(rules::specs::Market::elsewhere_reference))]
fn elsewhere_reference(bought: bool, m: Market) -> Mills
    ensures { result ≡ elsewhere_reference bought m }
{
    let best = national(bought, m);
    let opposite = national(!bought, m);
    if is_unusable(m) || is_missing(best) && at_or_past(bought, m.close, opposite) {
        m.close
    } else {
        best
    }
}

#[tactic(auto, unfolding(rules::specs::Market::reference))]
pub fn reference(bought: bool, m: Market) -> Mills
    ensures { result ≡ reference bought m }
{
    if m.phase == 0 {
        if m.elsewhere != 0 {
            elsewhere_reference(bought, m)
        } else {
            m.close
        }
    } else if m.phase == 1 && is_unusable(m) {
        own(bought, m)
    } else {
        national(bought, m)
    }
}
