// The loop over the fields of a message: document 02, S-1. What a field does to the state is `step`'s.
#![tactic(auto)]

ghost use Rattle.std.specs.Prelude.{◌≡◌, ◌<◌, length};
ghost use Rattle.rules.specs.Lists.{same_numbers};
ghost use Rattle.rules.specs.Fix.{is_further, one, has_form};
ghost use Rattle.fields.specs.Fields.{Inside, value_in};
ghost use Rattle.scan.specs.Scanning.{begun, legs_in, places_step, step_of, scanned};

use fields::{Field, Fields, Span};
use frame::{Tail, tail_step};
use groups::{Sequence, sequence_step};
use number_values::{is_one, number_said};
use values::has_form;

// Where the values stand that the order is made of.
#[derive(Clone, Copy)]
pub struct Places {
    // 40 says market.
    pub market: bool,
    // The places of the value of 44.
    pub price: Span,
    // The place behind 555, where the groups begin, and their number.
    pub groups: usize,
    pub legs: u64,
}

// What the fields so far say.
#[derive(Clone, Copy)]
pub struct Scan {
    // The place behind the last field.
    pub next: usize,
    pub tail: Tail,
    pub sequence: Sequence,
    // Every value had its form.
    pub formed: bool,
    pub places: Places,
}

// Before the first field, which begins at the place `at`.
fn start(at: usize) -> Scan
    ensures { result ≡ begun at }
{
    Scan {
        next: at,
        tail: Tail {
            closing: None,
            stray: false,
        },
        sequence: Sequence {
            kind: false,
            price: false,
            legs: false,
            left: 0,
            wrong: false,
        },
        formed: true,
        places: Places {
            market: false,
            price: Span { start: 0, end: 0 },
            groups: 0,
            legs: 0,
        },
    }
}

// The number of groups that a field says.
fn legs_in(message: &[u8], f: Field) -> u64
    requires { Inside (length message.now) f.value }
    ensures { (result ≡ legs_in message.now f) × (result < 1000000000000000) }
{
    if f.tag == 555 {
        number_said(f.value.of(message))
    } else {
        0
    }
}

// The places after a field that says so many groups. They are made anew even where they stay: see `step`.
#[tactic(auto, unfolding(crate::specs::Scanning::places_step))]
fn places_step(message: &[u8], p: Places, f: Field, legs: u64) -> Places
    requires inside { Inside (length message.now) f.value }
    requires legs_value { legs ≡ legs_in message.now f }
    ensures { result ≡ places_step message.now p f }
{
    match f.tag {
        40 => Places {
            market: is_one(f.value.of(message)),
            ..p
        },
        44 => Places {
            price: f.value,
            ..p
        },
        555 => Places {
            groups: f.next,
            legs,
            ..p
        },
        _ => Places { ..p },
    }
}

// Whether a tag is a further one.
#[tactic(auto, unfolding(rules::specs::Fix::is_further))]
fn is_further(tag: u64) -> bool
    ensures { result ≡ is_further tag }
{
    match tag {
        8 | 9 | 10 | 35 | 40 | 44 | 555 | 600 | 623 | 624 => false,
        _ => true,
    }
}

// The state after a field. Most fields have a further tag: they are stepped over before anything else is computed. Else
// sequence and places are made anew: copied as a whole, their padding would be moved at every turn.
#[tactic(auto, using(crate::proofs::Laws::passes), unfolding(crate::specs::Scanning::step_of))]
fn step(message: &[u8], s: Scan, f: Field) -> Scan
    requires { Inside (length message.now) f.value }
    ensures { result ≡ step_of message.now s f }
{
    if is_further(f.tag) && s.sequence.left == 0 && s.tail.closing.is_none() {
        return Scan { next: f.next, ..s };
    }
    let legs = legs_in(message, f);
    let sequence = sequence_step(s.sequence, f.tag, legs);
    Scan {
        next: f.next,
        tail: tail_step(s.tail, s.next, f),
        sequence: Sequence { ..sequence },
        formed: s.formed && has_form(f.tag, f.value.of(message)),
        places: places_step(message, s.places, f, legs),
    }
}

// What the fields of a message say, from the place `at` on.
pub fn scan_fields(message: &[u8], at: usize) -> Scan
    ensures { result ≡ scanned message.now at }
{
    let mut s = start(at);
    let fields = Fields { message, at };
    for f in fields {
        s = step(message, s, f);
    }
    s
}
