// The entry for FIX messages: document 02, S-1.
ghost use Rattle.std.specs.Prelude.{◌≡◌};
ghost use Rattle.rules.specs.Market.{settings_of, market_of};
ghost use Rattle.rules.specs.Fix.{check_fix};

use answers::lend;
use fix_check::check_fix;

// Checks the order that a message says. The number is the result; class, shape and pairings are lent.
#[unsafe(no_mangle)]
pub extern "C" fn opc_check_fix(
    message: &[u8],
    stop: u64,
    manual: u64,
    opening: u64,
    settings: &[u64],
    market: &[u64],
    class: &mut u64,
    shape: &mut u64,
    pairings: &mut u64,
) -> u64
    ensures { record { number = result; class = class.new; shape = shape.new; pairings = pairings.new } ≡ check_fix (record { settings = settings_of settings.now; market = market_of market.now; stop = stop; manual = manual; opening = opening }) message.now }
{
    let answer = check_fix(message, stop, manual, opening, settings, market);
    lend(answer, class, shape, pairings)
}
