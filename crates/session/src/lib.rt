// A session of 32 logins: what turns a call away, an order that is counted, and a release.
#![tactic(auto)]

ghost use Rattle.std.specs.Prelude.{◌≡◌, true, ◌-◌};
ghost use Rattle.rules.specs.Lists.{any};
ghost use Rattle.rules.specs.Session.{login_at, logins, with_login, is_bad_login, in_all, gets_twelve, turned_away, counted_login, release_login};
ghost use Rattle.answers.specs.Answers.{refusal_number, number_of, answer_said};

use answers::{Answer, Refusal, fail_if, said};
use logins::{counted_login, is_bad_login, login_at, place_login, released_login};

// How many orders the session may still tally. What all logins have seen might not fit a word, so it is taken from the
// room that a session begins with.
#[tactic(auto, using(crate::proofs::Survey::room_next, crate::proofs::Survey::room_all), unfolding(rules::specs::Session::in_all))]
fn room(session: &[u64; 192]) -> u64
    ensures { result ≡ 1000000 - in_all session.now }
{
    let mut room: u64 = 1000000;
    for i in 0..32 {
        room = room.saturating_sub(login_at(session, i).tally.seen);
    }
    room
}

// Some login is bad.
fn some_bad(session: &[u64; 192]) -> bool
    ensures { result ≡ any is_bad_login (logins session.now) }
{
    (0..32).any(|i| is_bad_login(login_at(session, i)))
}

// Some login is bad; or, to an order, there is no room for one more.
#[tactic(auto, using(crate::proofs::Survey::no_room), unfolding(rules::specs::Session::is_bad_session))]
fn gets_twelve(is_order: bool, session: &[u64; 192]) -> bool
    ensures { result ≡ gets_twelve is_order session.now }
{
    some_bad(session) || is_order && room(session) == 0
}

// What turns away an order of a login, or its release.
#[tactic(auto, unfolding(rules::specs::Session::turned_away, rules::specs::Session::is_bad_session, rules::specs::Numbers::first_of))]
pub fn turned_away(is_order: bool, session: &[u64], login: u64) -> Result<(), Refusal>
    ensures { number_of refusal_number result ≡ turned_away is_order session.now login }
{
    fail_if(31 < login, Refusal::BadLogin)?;
    let session = session.as_array::<192>().ok_or(Refusal::BadTally)?;
    fail_if(gets_twelve(is_order, session), Refusal::BadTally)?;
    let l = login_at(session, login as usize);
    fail_if(is_order && l.limit <= l.running, Refusal::RestrictedLogin)
}

// Counts an order that was not turned away, by the number that it got.
#[tactic(auto, using(crate::proofs::Turned::placed, crate::proofs::Turned::tally_countable, crate::proofs::Turned::running_countable))]
pub fn count_order(session: &mut [u64], login: u64, number: u64)
    requires { turned_away true session.old login ≡ 0 }
    ensures { session.new ≡ with_login session.old login (counted_login (login_at session.old login) number) }
{
    let session = session.as_mut_array::<192>().unwrap();
    let i = login as usize;
    let l = login_at(session, i);
    place_login(session, i, counted_login(l, number));
}

// Counts an order that was not turned away, by its answer.
pub fn count_answer(session: &mut [u64], login: u64, answer: Answer)
    requires { turned_away true session.old login ≡ 0 }
    ensures { session.new ≡ with_login session.old login (counted_login (login_at session.old login) (answer_said answer).number) }
{
    count_order(session, login, said(answer).number);
}

// Releases a login: its running number alone becomes 0.
#[tactic(auto, using(crate::proofs::Turned::placed), unfolding(rules::specs::Session::release_login))]
pub fn release(session: &mut [u64], login: u64) -> Result<(), Refusal>
    ensures value { number_of refusal_number result ≡ (release_login session.old login).number }
    ensures session_after { session.new ≡ (release_login session.old login).session }
{
    turned_away(false, session, login)?;
    let session = session.as_mut_array::<192>().unwrap();
    let i = login as usize;
    let l = login_at(session, i);
    place_login(session, i, released_login(l));
    Ok(())
}
