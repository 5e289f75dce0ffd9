// The entry for orders.
ghost use Rattle.std.specs.Prelude.{◌≡◌};
ghost use Rattle.rules.specs.Market.{settings_of, market_of};
ghost use Rattle.rules.specs.Numbers.{answer_to};

use answers::lend;
use order_check::check_slices;
use terms::terms_of;

// Checks an order. The number is the result; class, shape and pairings are lent.
#[unsafe(no_mangle)]
pub extern "C" fn opc_check_order(
    symbols: &[u8],
    counts: &[u8],
    price: i64,
    kind: u64,
    stop: u64,
    manual: u64,
    opening: u64,
    shares: i64,
    settings: &[u64],
    market: &[u64],
    class: &mut u64,
    shape: &mut u64,
    pairings: &mut u64,
) -> u64
    ensures { record { number = result; class = class.new; shape = shape.new; pairings = pairings.new } ≡ answer_to (record { settings = settings_of settings.now; market = market_of market.now; price = price; kind = kind; stop = stop; manual = manual; opening = opening; shares = shares }) symbols.now counts.now }
{
    let terms = terms_of(price, kind, stop, manual, opening, shares);
    let answer = check_slices(symbols, counts, terms, settings, market);
    lend(answer, class, shape, pairings)
}
