// The order check.
#![tactic(auto)]

ghost use Rattle.std.specs.Prelude.{◌≡◌};
ghost use Rattle.rules.specs.Market.{settings_of, market_of};
ghost use Rattle.rules.specs.Numbers.{check_order, check_slices};
ghost use Rattle.answers.specs.Answers.{answer_said};

use answers::{Answer, Refusal, fail_if};
use inputs::{market_of, settings_of};
use judge::judge;
use keys::arrange;
use order_record::{are_whole, order_of};
use reading::read_legs;
use rules::{Order, Terms};
use validity::refusal;

// The order check on the order record, with settings and market as the host hands them in: made into records here, they
// are not copied on the way. The legs are read into arrays of numbers, which a refusal's tests sort; a valid order's are
// then arranged, tag and contracts side by side.
pub fn check_order(o: Order, settings: &[u64], market: &[u64]) -> Answer
    ensures { answer_said result ≡ check_order (settings_of settings.now) (market_of market.now) o }
{
    let st = settings_of(settings);
    let m = market_of(market);
    let mut places = [0u64; 16];
    let mut sizes = [0u64; 16];
    let mut roots = [0u64; 16];
    let read = read_legs(&o.legs, o.len, &mut places, &mut sizes, &mut roots)?;
    let held = refusal(read, o.terms, &mut places, &roots, st, m)?;
    let n = read.len;
    let mut left = [0u64; 16];
    arrange(&mut places[..n], &sizes, &mut left[..n]);
    Ok(judge(&held, o.terms, &places, &mut left, n))
}

// The order check on the host's slices. A record has no place for more legs than 16.
#[tactic(auto, using(order_record::proofs::Laws::whole_lengths, crate::proofs::Laws::not_whole, crate::proofs::Laws::too_many, crate::proofs::Laws::as_record))]
pub fn check_slices(
    symbols: &[u8],
    counts: &[u8],
    t: Terms,
    settings: &[u64],
    market: &[u64],
) -> Answer
    ensures { answer_said result ≡ check_slices (settings_of settings.now) (market_of market.now) t symbols.now counts.now }
{
    fail_if(!are_whole(symbols, counts), Refusal::Not21Bytes)?;
    let n = counts.len() / 8;
    fail_if(16 < n, Refusal::BadLegCount)?;
    check_order(order_of(symbols, counts, n, t), settings, market)
}
