// One login of a session: read from its place, tested, changed, and put back.
#![tactic(auto)]

ghost use Rattle.std.specs.Prelude.{◌≡◌, false, ◌<◌, ◌≤◌};
ghost use Rattle.rules.specs.Tally.{is_bad_tally};
ghost use Rattle.rules.specs.Session.{login_at, with_login, is_rejection_limit, is_bad_login, counted_login, released_login};
ghost use Rattle.answers.specs.Answers.{answer_said};

use amounts::within;
use answers::{Answer, said};
use rules::{Login, Tally};
use tally::{counted, is_broken, is_rejected};

// Reads a login from its six places.
#[tactic(auto, using(crate::proofs::Laws::chunk_read), unfolding(rules::specs::Session::login_at))]
pub fn login_at(session: &[u64; 192], i: usize) -> Login
    requires { i < 32 }
    ensures { result ≡ login_at session.now i }
{
    let [limit, seen, refused, accepted, rejected, running] = session.as_chunks::<6>().0[i];
    Login {
        limit,
        tally: Tally {
            seen,
            refused,
            accepted,
            rejected,
        },
        running,
    }
}

// Stores a login in its six places; the others stay. One by one: to copy them as an array makes a session's start three
// times as long.
#[tactic(auto, using(crate::proofs::Laws::stored_login))]
pub fn place_login(session: &mut [u64; 192], i: usize, l: Login)
    requires { i < 32 }
    ensures { session.new ≡ with_login session.old i l }
{
    let at = 6 * i;
    session[at] = l.limit;
    session[at + 1] = l.tally.seen;
    session[at + 2] = l.tally.refused;
    session[at + 3] = l.tally.accepted;
    session[at + 4] = l.tally.rejected;
    session[at + 5] = l.running;
}

// Whether a limit of rejections is within its range.
pub fn is_limit(n: u64) -> bool
    ensures { result ≡ is_rejection_limit n }
{
    within(1, 10000, n)
}

// Whether a login's numbers cannot be those of a session that was started.
#[tactic(auto, unfolding(rules::specs::Session::is_bad_login))]
pub fn is_bad_login(l: Login) -> bool
    ensures { result ≡ is_bad_login l }
{
    !is_limit(l.limit) || is_broken(l.tally) || l.limit < l.running || l.tally.rejected < l.running
}

// One order more, by the number that it got.
pub fn counted_login(l: Login, number: u64) -> Login
    requires { (is_bad_tally l.tally ≡ false) × (l.running ≤ 10000) }
    ensures { result ≡ counted_login l number }
{
    Login {
        tally: counted(l.tally, number),
        running: l.running + u64::from(is_rejected(number)),
        ..l
    }
}

// One order more, by its answer.
pub fn counted_answer(l: Login, answer: Answer) -> Login
    requires { (is_bad_tally l.tally ≡ false) × (l.running ≤ 10000) }
    ensures { result ≡ counted_login l (answer_said answer).number }
{
    counted_login(l, said(answer).number)
}

// The rejections count from 0 again; the tally stays.
pub fn released_login(l: Login) -> Login
    ensures { result ≡ released_login l }
{
    Login { running: 0, ..l }
}
