// The entry for crossing quotes: document 02, S-7.
ghost use Rattle.std.specs.Prelude.{◌≡◌, length};
ghost use Rattle.rules.specs.Market.{settings_of, market_of};
ghost use Rattle.rules.specs.Crossing.{check_crossing};

use answers::said_of_quote;
use crossing::cross;
use quote_check::check_slices;
use resting::Crossing;
use rules::Mills;
use sides::Quote;

// Checks a crossing quote. The number is the result; the flag, the three parts of the size and the fills are lent.
#[tactic(auto, using(crossing::proofs::Laws::crossed_by_lem))]
#[unsafe(no_mangle)]
pub extern "C" fn opc_check_crossing_quote(
    symbol: &[u8],
    bid: u64,
    offer: u64,
    resting: u64,
    sell: u64,
    size: u64,
    prices: &[u64],
    sizes: &[u64],
    away: u64,
    settings: &[u64],
    market: &[u64],
    fills: &mut [u64],
    cancel: &mut u64,
    executed: &mut u64,
    booked: &mut u64,
    cancelled: &mut u64,
) -> u64
    ensures { record { answer = record { number = result; cancel = cancel.new; executed = executed.new; booked = booked.new; cancelled = cancelled.new }; fills = fills.new } ≡ check_crossing (settings_of settings.now) (market_of market.now) symbol.now (record { 0 = bid }) (record { 0 = offer }) resting (record { sell = sell; size = size; prices = prices.now; sizes = sizes.now; away = record { 0 = away } }) (length fills.old) }
{
    let quote = Quote {
        bid: Mills(bid),
        offer: Mills(offer),
    };
    let checked = check_slices(symbol, quote, resting, settings, market);
    let crossing = Crossing {
        sell,
        size,
        prices,
        sizes,
        away: Mills(away),
    };
    let said = cross(said_of_quote(checked), quote, crossing, fills);
    *cancel = said.cancel;
    *executed = said.executed;
    *booked = said.booked;
    *cancelled = said.cancelled;
    said.number
}
