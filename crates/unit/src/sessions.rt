// The entries that start a session and release a login: document 02, S-6.
ghost use Rattle.std.specs.Prelude.{◌≡◌};
ghost use Rattle.rules.specs.Session.{start_session, release_login};

use answers::number;

// Starts a session of 32 logins with their limits. The number is the result.
#[unsafe(no_mangle)]
pub extern "C" fn opc_start_session(limits: &[u64], session: &mut [u64]) -> u64
    ensures { record { number = result; session = session.new } ≡ start_session limits.now session.old }
{
    number(session_start::start(limits, session))
}

// Releases a login. The number is the result.
#[unsafe(no_mangle)]
pub extern "C" fn opc_release_login(login: u64, session: &mut [u64]) -> u64
    ensures { record { number = result; session = session.new } ≡ release_login session.old login }
{
    number(session::release(session, login))
}
