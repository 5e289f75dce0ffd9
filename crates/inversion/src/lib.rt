// Check 26, quote inversion.
#![tactic(auto)]

ghost use Rattle.std.specs.Prelude.{◌≡◌, ◌≤◌};
ghost use Rattle.rules.specs.Quote.{comparison, set_distance, is_inverted, is_quoting, quote_inversion};

use distance::{distance, tick_at};
use limits::Held;
use reference::is_unusable;
use rules::{Market, Mills};
use sides::{Quote, at_or_past, is_beyond, national, own};

#[tactic(auto, unfolding(rules::specs::Quote::comparison))]
fn comparison(bought: bool, m: Market) -> Mills
    ensures { result ≡ comparison bought m }
{
    if is_unusable(m) {
        own(bought, m)
    } else {
        national(bought, m)
    }
}

// The set ticks as mills, of the tick at `p`.
#[tactic(auto, using(laws::proofs::Bounds::settings_bounds, laws::proofs::Bounds::tick_bound, laws::proofs::Bounds::distance_bound), unfolding(rules::specs::Quote::set_distance))]
fn set_distance(h: &Held, p: Mills) -> Mills
    ensures { (result ≡ set_distance h.now.settings p) × (result.0 ≤ 1000000) }
{
    distance(h.settings.setticks, tick_at(h.settings, p))
}

// One side of a quote: the bid (`bought`) or the offer. Where the own price stands in for the national best it equals
// the comparison price, and the set ticks apply.
#[tactic(auto, using(laws::proofs::Bounds::comparison_bound), unfolding(rules::specs::Quote::is_inverted))]
pub fn is_inverted(bought: bool, h: &Held, price: Mills) -> bool
    ensures { result ≡ is_inverted bought h.now.settings h.now.market price }
{
    let p = comparison(bought, h.market);
    let o = own(bought, h.market);
    let d = set_distance(h, p);
    let past = if o.0 == p.0 {
        is_beyond(bought, price, p, d)
    } else {
        at_or_past(bought, price, p)
    };
    p.0 != 0 && past
}

// Not in a halt, nor before the opening where the option is not open elsewhere.
fn is_quoting(m: Market) -> bool
    ensures { result ≡ is_quoting m }
{
    m.phase == 1 || m.phase == 0 && m.elsewhere != 0
}

#[tactic(auto, unfolding(rules::specs::Quote::quote_inversion))]
pub fn quote_inversion(h: &Held, q: Quote) -> bool
    ensures { result ≡ quote_inversion h.now.settings h.now.market q.bid q.offer }
{
    is_quoting(h.market) && (is_inverted(true, h, q.bid) || is_inverted(false, h, q.offer))
}
