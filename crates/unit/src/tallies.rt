// The entry for orders that are tallied.
ghost use Rattle.std.specs.Prelude.{◌≡◌};
ghost use Rattle.rules.specs.Market.{settings_of, market_of};
ghost use Rattle.rules.specs.Tally.{order, check_tallied};

use order_check::check_slices;
use tally::lend_tallied;
use terms::terms_of;

// Checks an order and adds it to a tally. The tally is lent both ways.
#[tactic(auto, unfolding(rules::specs::Tally::check_tallied))]
#[unsafe(no_mangle)]
pub extern "C" fn opc_check_order_tallied(
    symbols: &[u8],
    counts: &[u8],
    price: i64,
    kind: u64,
    stop: u64,
    manual: u64,
    opening: u64,
    shares: i64,
    settings: &[u64],
    market: &[u64],
    class: &mut u64,
    shape: &mut u64,
    pairings: &mut u64,
    seen: &mut u64,
    refused: &mut u64,
    accepted: &mut u64,
    rejected: &mut u64,
) -> u64
    ensures { record { answer = record { number = result; class = class.new; shape = shape.new; pairings = pairings.new }; tally = record { seen = seen.new; refused = refused.new; accepted = accepted.new; rejected = rejected.new } } ≡ check_tallied (record { seen = seen.old; refused = refused.old; accepted = accepted.old; rejected = rejected.old }) (order (record { settings = settings_of settings.now; market = market_of market.now; price = price; kind = kind; stop = stop; manual = manual; opening = opening; shares = shares }) symbols.now counts.now) }
{
    let terms = terms_of(price, kind, stop, manual, opening, shares);
    let answer = check_slices(symbols, counts, terms, settings, market);
    lend_tallied(
        answer, class, shape, pairings, seen, refused, accepted, rejected,
    )
}
