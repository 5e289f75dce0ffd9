// The entry for quotes.
ghost use Rattle.std.specs.Prelude.{◌≡◌};
ghost use Rattle.rules.specs.Market.{settings_of, market_of};
ghost use Rattle.rules.specs.Quote.{check_quote};

use answers::said_of_quote;
use quote_check::check_slices;
use rules::Mills;
use sides::Quote;

// Checks a quote. The number is the result; the cancel flag is lent.
#[unsafe(no_mangle)]
pub extern "C" fn opc_check_quote(
    symbol: &[u8],
    bid: u64,
    offer: u64,
    resting: u64,
    settings: &[u64],
    market: &[u64],
    cancel: &mut u64,
) -> u64
    ensures { record { number = result; cancel = cancel.new } ≡ check_quote (settings_of settings.now) (market_of market.now) symbol.now (record { 0 = bid }) (record { 0 = offer }) resting }
{
    let quote = Quote {
        bid: Mills(bid),
        offer: Mills(offer),
    };
    let answer = said_of_quote(check_slices(symbol, quote, resting, settings, market));
    *cancel = answer.cancel;
    answer.number
}
