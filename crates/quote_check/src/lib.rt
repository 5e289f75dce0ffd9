// The quote check.
#![tactic(auto)]

ghost use Rattle.std.specs.Prelude.{◌≡◌};
ghost use Rattle.rules.specs.Market.{settings_of, market_of};
ghost use Rattle.rules.specs.Quote.{quote_rejection, answered_quote, check_quote};
ghost use Rattle.answers.specs.Answers.{number_of, check_number, judged_quote_said, quote_said};

use answers::{AnswerToQuote, Check, JudgedQuote, fail_if};
use inputs::{market_of, settings_of};
use inversion::quote_inversion;
use limits::Held;
use put_call::{call_test, put_test};
use quote_validity::read_quote;
use rules::{Market, Series, Settings};
use sides::Quote;

// The first check that applies. 20 and 21 test the bid.
#[tactic(auto, unfolding(rules::specs::Quote::quote_rejection, rules::specs::Numbers::first_of))]
pub fn rejection(h: &Held, s: Series, q: Quote) -> Result<(), Check>
    ensures { number_of check_number result ≡ quote_rejection h.now.settings h.now.market s q.bid q.offer }
{
    let st = &h.settings;
    fail_if(st.check20 != 0 && put_test(s, q.bid), Check::Put)?;
    fail_if(
        st.check21 != 0 && call_test(st.adjusted != 0, h.market, s, q.bid),
        Check::Call,
    )?;
    fail_if(
        st.check26 != 0 && quote_inversion(h, q),
        Check::QuoteInversion,
    )
}

// A rejection cancels the resting quote.
fn judged(resting: u64, verdict: Result<(), Check>) -> JudgedQuote
    ensures { judged_quote_said result ≡ answered_quote resting (number_of check_number verdict) }
{
    JudgedQuote {
        verdict,
        cancel: resting != 0 && verdict.is_err(),
    }
}

// The quote check on the host's bytes. A refusal leaves the resting quote alone.
#[tactic(auto, unfolding(rules::specs::Quote::check_quote, rules::specs::Quote::quote_outcome))]
fn check_quote(symbol: &[u8], q: Quote, resting: u64, st: Settings, m: Market) -> AnswerToQuote
    ensures { quote_said result ≡ check_quote st m symbol.now q.bid q.offer resting }
{
    let read = read_quote(symbol, q, st, m)?;
    Ok(judged(resting, rejection(&read.held, read.series, q)))
}

// The quote check on the host's slices.
pub fn check_slices(
    symbol: &[u8],
    q: Quote,
    resting: u64,
    settings: &[u64],
    market: &[u64],
) -> AnswerToQuote
    ensures { quote_said result ≡ check_quote (settings_of settings.now) (market_of market.now) symbol.now q.bid q.offer resting }
{
    let set = settings_of(settings);
    let values = market_of(market);
    check_quote(symbol, q, resting, set, values)
}
