// The refusals of a quote: the first that applies, and root and series as read.
#![tactic(auto)]

ghost use Rattle.std.specs.Prelude.{◌≡◌, IfOk};
ghost use Rattle.rules.specs.Symbol.{parts_of};
ghost use Rattle.rules.specs.Order.{series_of};
ghost use Rattle.rules.specs.Quote.{is_bad_quote, quote_refusal};
ghost use Rattle.answers.specs.Answers.{refusal_number, number_of};

use amounts::within;
use answers::{Refusal, fail_if};
use limits::{Held, within_limits};
use rules::{Market, Series, Settings};
use series::series_of;
use sides::Quote;

// What the symbol of a quote says, with settings and market within their limits.
#[derive(Clone, Copy)]
pub struct QuoteRead {
    pub root: u64,
    pub series: Series,
    pub held: Held,
}

#[tactic(auto, unfolding(rules::specs::Quote::is_bad_quote))]
fn is_bad_quote(q: Quote) -> bool
    ensures { result ≡ is_bad_quote q.bid q.offer }
{
    !within(1, 1000000000, q.bid.0) || !within(1, 1000000000, q.offer.0) || q.offer.0 <= q.bid.0
}

// The reader's refusals, 1 and 4, are the first two of a quote's.
#[tactic(auto, unfolding(rules::specs::Quote::quote_refusal, rules::specs::Numbers::first_of, rules::specs::Symbol::read_symbol))]
pub fn read_quote(symbol: &[u8], q: Quote, st: Settings, m: Market) -> Result<QuoteRead, Refusal>
    ensures number { number_of refusal_number result ≡ quote_refusal st m symbol.now q.bid q.offer }
    ensures root { IfOk result (λ r. r.root ≡ (parts_of symbol.now).root) }
    ensures series { IfOk result (λ r. r.series ≡ series_of (parts_of symbol.now)) }
    ensures held { IfOk result (λ r. (r.held.settings ≡ st) × (r.held.market ≡ m)) }
{
    let parts = symbol::read(symbol)?;
    let held = within_limits(st, m)?;
    fail_if(is_bad_quote(q), Refusal::BadQuote)?;
    Ok(QuoteRead {
        root: parts.root,
        series: series_of(parts),
        held,
    })
}
