// The tests of an amount paid for one option, of an order as of a quote.
#![tactic(auto)]

ghost use Rattle.std.specs.Prelude.{◌≡◌};
ghost use Rattle.rules.specs.Checks.{put_test, call_test};

use rules::{Market, Mills, Series};

// Check 20: a put at its strike or above.
#[tactic(auto, unfolding(rules::specs::Checks::put_test))]
pub fn put_test(s: Series, paid: Mills) -> bool
    ensures { result ≡ put_test s paid }
{
    !s.call && s.strike.0 <= paid.0
}

// Check 21: a call at the underlying's value or above. `adjusted`: the class is.
#[tactic(auto, unfolding(rules::specs::Checks::call_test, rules::specs::Lists::every))]
pub fn call_test(adjusted: bool, m: Market, s: Series, paid: Mills) -> bool
    ensures { result ≡ call_test adjusted m s paid }
{
    s.call && 0 < m.underlying.0 && m.underlying.0 <= paid.0 && !adjusted && m.extended == 0
}
