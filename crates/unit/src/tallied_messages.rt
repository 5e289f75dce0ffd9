// The entry for FIX messages that are tallied: document 02, S-1.
ghost use Rattle.std.specs.Prelude.{◌≡◌};
ghost use Rattle.rules.specs.Market.{settings_of, market_of};
ghost use Rattle.rules.specs.Tally.{message as message_call, check_tallied};

use fix_check::check_fix;
use tally::lend_tallied;

// Checks the order that a message says and adds it to a tally. The tally is lent both ways.
#[tactic(auto, unfolding(rules::specs::Tally::check_tallied))]
#[unsafe(no_mangle)]
pub extern "C" fn opc_check_fix_tallied(
    message: &[u8],
    stop: u64,
    manual: u64,
    opening: u64,
    settings: &[u64],
    market: &[u64],
    class: &mut u64,
    shape: &mut u64,
    pairings: &mut u64,
    seen: &mut u64,
    refused: &mut u64,
    accepted: &mut u64,
    rejected: &mut u64,
) -> u64
    ensures { record { answer = record { number = result; class = class.new; shape = shape.new; pairings = pairings.new }; tally = record { seen = seen.new; refused = refused.new; accepted = accepted.new; rejected = rejected.new } } ≡ check_tallied (record { seen = seen.old; refused = refused.old; accepted = accepted.old; rejected = rejected.old }) (message_call (record { settings = settings_of settings.now; market = market_of market.now; stop = stop; manual = manual; opening = opening }) message.now) }
{
    let answer = check_fix(message, stop, manual, opening, settings, market);
    lend_tallied(
        answer, class, shape, pairings, seen, refused, accepted, rejected,
    )
}
