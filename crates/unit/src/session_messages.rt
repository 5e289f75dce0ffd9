// The entry for FIX messages of a login: document 02, S-1 and S-6.
ghost use Rattle.std.specs.Prelude.{◌≡◌};
ghost use Rattle.rules.specs.Market.{settings_of, market_of};
ghost use Rattle.rules.specs.Tally.{message as message_call};
ghost use Rattle.rules.specs.Session.{check_in_session};

use answers::lend;
use fix_check::check_fix;
use session::{count_answer, turned_away};

// Checks the order that a message of a login says and counts it in the session, which is lent both ways.
#[tactic(auto, unfolding(rules::specs::Session::check_in_session, rules::specs::Numbers::outcome))]
#[unsafe(no_mangle)]
pub extern "C" fn opc_check_fix_session(
    login: u64,
    message: &[u8],
    stop: u64,
    manual: u64,
    opening: u64,
    settings: &[u64],
    market: &[u64],
    session: &mut [u64],
    class: &mut u64,
    shape: &mut u64,
    pairings: &mut u64,
) -> u64
    ensures { record { answer = record { number = result; class = class.new; shape = shape.new; pairings = pairings.new }; session = session.new } ≡ check_in_session session.old login (message_call (record { settings = settings_of settings.now; market = market_of market.now; stop = stop; manual = manual; opening = opening }) message.now) }
{
    if let Err(refusal) = turned_away(true, session, login) {
        return lend(Err(refusal), class, shape, pairings);
    }
    let answer = check_fix(message, stop, manual, opening, settings, market);
    count_answer(session, login, answer);
    lend(answer, class, shape, pairings)
}
