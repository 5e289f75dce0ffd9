// The entry for orders of a login: document 02, S-6.
ghost use Rattle.std.specs.Prelude.{◌≡◌};
ghost use Rattle.rules.specs.Market.{settings_of, market_of};
ghost use Rattle.rules.specs.Tally.{order};
ghost use Rattle.rules.specs.Session.{check_in_session};

use answers::lend;
use order_check::check_slices;
use session::{count_answer, turned_away};
use terms::terms_of;

// Checks an order of a login and counts it in the session, which is lent both ways.
#[tactic(auto, unfolding(rules::specs::Session::check_in_session, rules::specs::Numbers::outcome))]
#[unsafe(no_mangle)]
pub extern "C" fn opc_check_order_session(
    login: u64,
    symbols: &[u8],
    counts: &[u8],
    price: i64,
    kind: u64,
    stop: u64,
    manual: u64,
    opening: u64,
    shares: i64,
    settings: &[u64],
    market: &[u64],
    session: &mut [u64],
    class: &mut u64,
    shape: &mut u64,
    pairings: &mut u64,
) -> u64
    ensures { record { answer = record { number = result; class = class.new; shape = shape.new; pairings = pairings.new }; session = session.new } ≡ check_in_session session.old login (order (record { settings = settings_of settings.now; market = market_of market.now; price = price; kind = kind; stop = stop; manual = manual; opening = opening; shares = shares }) symbols.now counts.now) }
{
    if let Err(refusal) = turned_away(true, session, login) {
        return lend(Err(refusal), class, shape, pairings);
    }
    let terms = terms_of(price, kind, stop, manual, opening, shares);
    let answer = check_slices(symbols, counts, terms, settings, market);
    count_answer(session, login, answer);
    lend(answer, class, shape, pairings)
}
