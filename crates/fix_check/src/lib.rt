// The check on messages: document 02, S-1.
#![tactic(auto)]

ghost use Rattle.std.specs.Prelude.{◌≡◌, true, cond, length, pos, IfOk, Some};
ghost use Rattle.std.proofs.Math.Seq.{slice};
ghost use Rattle.rules.specs.Order.{terms_of};
ghost use Rattle.rules.specs.Market.{settings_of, market_of};
ghost use Rattle.rules.specs.Fix.{is_price, price_said, message_refusal, check_fix};
ghost use Rattle.answers.specs.Answers.{refusal_number, number_of, answer_said};
ghost use Rattle.fields.specs.Fields.{Inside};
ghost use Rattle.frame.specs.Frame.{head_of};
ghost use Rattle.scan.specs.Scanning.{scanned};
ghost use Rattle.scan_laws.specs.Message.{is_framed_by};
ghost use Rattle.fix_check.specs.Reading.{AreRead};

use answers::{Answer, Refusal, fail_if};
use frame::{Head, head_of};
use groups::is_complete;
use message_order::order_said;
use order_check::check_order;
use rules::Terms;
use scan::{Places, Scan, scan_fields};
use sums::{is_sum, sum_before};
use terms::shares_of;
use values::price_said;

// Whether the frame of a message is right behind its head, with its length and its sum.
fn is_framed(message: &[u8], h: Head, s: Scan) -> bool
    requires { (head_of message.now ≡ Some h) × (s ≡ scanned message.now h.body) }
    ensures { result ≡ is_framed_by message.now h s }
{
    let Some(closing) = s.tail.closing else {
        return false;
    };
    if s.next != message.len() || s.tail.stray {
        return false;
    }
    let size = (closing.at - h.counted) as u64;
    let sum = sum_before(message, closing.at);
    h.said == size && is_sum(closing.value.of(message), sum)
}

// Where the values of a message's order stand, or the first of 30, 31 and 32 that applies.
fn places_of(message: &[u8]) -> Result<Places, Refusal>
    ensures number { number_of refusal_number result ≡ message_refusal message.now }
    ensures places { IfOk result (AreRead message.now) }
{
    let h = head_of(message).ok_or(Refusal::BadFrame)?;
    let s = scan_fields(message, h.body);
    fail_if(!is_framed(message, h, s), Refusal::BadFrame)?;
    fail_if(!is_complete(s.sequence), Refusal::BadTag)?;
    fail_if(!s.formed, Refusal::BadValue)?;
    Ok(s.places)
}

// The terms of the order that a message says, with the host's flags and no shares.
fn terms_said(message: &[u8], p: Places, stop: u64, manual: u64, opening: u64) -> Terms
    requires { Inside (length message.now) p.price × (is_price (slice p.price.start p.price.end message.now) ≡ true) }
    ensures { result ≡ terms_of (price_said (slice p.price.start p.price.end message.now)) (cond p.market 1 0) stop manual opening (pos 0) }
{
    Terms {
        price: price_said(p.price.of(message)),
        kind: u64::from(p.market),
        stop,
        manual,
        opening,
        shares: shares_of(0),
    }
}

// The answer to a message. Nothing is kept of legs past the 16th, which have been read for their form.
pub fn check_fix(
    message: &[u8],
    stop: u64,
    manual: u64,
    opening: u64,
    settings: &[u64],
    market: &[u64],
) -> Answer
    ensures { answer_said result ≡ check_fix (record { settings = settings_of settings.now; market = market_of market.now; stop = stop; manual = manual; opening = opening }) message.now }
{
    let p = places_of(message)?;
    fail_if(16 < p.legs, Refusal::BadLegCount)?;
    let t = terms_said(message, p, stop, manual, opening);
    let o = order_said(message, p.groups, p.legs as usize, t);
    check_order(o, settings, market)
}
