// The start of a session: 32 limits, and a fresh login for each.
#![tactic(auto)]

ghost use Rattle.std.specs.Prelude.{◌≡◌};
ghost use Rattle.rules.specs.Lists.{all};
ghost use Rattle.rules.specs.Session.{is_rejection_limit, session_of, start_session};
ghost use Rattle.answers.specs.Answers.{refusal_number, number_of};

use answers::Refusal;
use logins::{is_limit, place_login};
use rules::{Login, Tally};

// Whether each is within its range.
fn are_limits(limits: &[u64; 32]) -> bool
    ensures { result ≡ all is_rejection_limit limits.now }
{
    limits.iter().all(|n| is_limit(*n))
}

// Each login anew, with its limit.
#[tactic(auto, using(crate::proofs::Laws::filled_next, crate::proofs::Laws::filled_all), unfolding(rules::specs::Session::session_of))]
fn fill(limits: &[u64; 32], session: &mut [u64; 192])
    ensures { session.new ≡ session_of limits.now }
{
    let tally = Tally {
        seen: 0,
        refused: 0,
        accepted: 0,
        rejected: 0,
    };
    for (i, limit) in limits.iter().enumerate() {
        let fresh = Login {
            limit: *limit,
            tally,
            running: 0,
        };
        place_login(session, i, fresh);
    }
}

// Starts a session. Other limits leave it all zero: no login has a limit, and each call of a login 0 to 31 gets 12.
#[tactic(auto, unfolding(rules::specs::Session::start_session, rules::specs::Numbers::first_of))]
pub fn start(limits: &[u64], session: &mut [u64]) -> Result<(), Refusal>
    ensures value { number_of refusal_number result ≡ (start_session limits.now session.old).number }
    ensures session_after { session.new ≡ (start_session limits.now session.old).session }
{
    let session = session.as_mut_array::<192>().ok_or(Refusal::BadTally)?;
    match limits.as_array::<32>() {
        Some(limits) if are_limits(limits) => {
            fill(limits, session);
            Ok(())
        }
        _ => {
            session.fill(0);
            Err(Refusal::BadSetting)
        }
    }
}
