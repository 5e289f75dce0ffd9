// The frame of a message: its first three fields, and its last. Document 02, S-1.
#![tactic(auto)]

ghost use Rattle.std.specs.Prelude.{◌≡◌, ◌&&◌, eqb, length};
ghost use Rattle.rules.specs.Lists.{same_numbers};
ghost use Rattle.fields.specs.Fields.{Inside, value_in};
ghost use Rattle.frame.specs.Frame.{head_from, head_of, tail_step};

use fields::{Field, Span, next_field};
use number_values::{is_number, number_of};

// What the first three fields say: 8, 9 and 35.
#[derive(Clone, Copy)]
pub struct Head {
    // The length that field 9 says.
    pub said: u64,
    // The place behind field 9, from where the length counts.
    pub counted: usize,
    // The place behind field 35, where the body begins.
    pub body: usize,
}

// Where field 10 stands, and the places of its value.
#[derive(Clone, Copy)]
pub struct Closing {
    pub at: usize,
    pub value: Span,
}

// What the fields behind field 35 say of the frame.
#[derive(Clone, Copy)]
pub struct Tail {
    // Field 10, where it was read.
    pub closing: Option<Closing>,
    // A field stood where none may: behind field 10, or 8, 9 or 35 in the body.
    pub stray: bool,
}

// Whether a field has this tag and this text.
#[tactic(auto, using(number_values::proofs::Laws::same_bytes))]
fn says(message: &[u8], f: Field, tag: u64, text: &[u8]) -> bool
    requires { Inside (length message.now) f.value }
    ensures { result ≡ eqb f.tag tag && same_numbers (value_in message.now f) text.now }
{
    f.tag == tag && f.value.of(message) == text
}

// What these fields say, as the first three of a message, where they are the frame's.
#[tactic(auto, unfolding(crate::specs::Frame::head_from))]
fn head_from(message: &[u8], f8: Field, f9: Field, f35: Field) -> Option<Head>
    requires { let n = length message.now in Inside n f8.value × Inside n f9.value × Inside n f35.value }
    ensures { result ≡ head_from message.now f8 f9 f35 }
{
    let length = f9.value.of(message);
    let is_version = says(message, f8, 8, b"FIX.4.4");
    let is_length = f9.tag == 9 && is_number(length);
    let is_multileg = says(message, f35, 35, b"AB");
    if !(is_version && is_length && is_multileg) {
        return None;
    }
    Some(Head {
        said: number_of(length),
        counted: f9.next,
        body: f35.next,
    })
}

// The first three fields of a message.
#[tactic(auto, using(fields::proofs::Laws::field_inside), unfolding(crate::specs::Frame::head_of))]
pub fn head_of(message: &[u8]) -> Option<Head>
    ensures { result ≡ head_of message.now }
{
    let f8 = next_field(message, 0)?;
    let f9 = next_field(message, f8.next)?;
    let f35 = next_field(message, f9.next)?;
    head_from(message, f8, f9, f35)
}

// A field at the place `at`, behind field 35.
#[tactic(auto, unfolding(crate::specs::Frame::tail_step))]
pub fn tail_step(t: Tail, at: usize, f: Field) -> Tail
    ensures { result ≡ tail_step t at f }
{
    if t.closing.is_some() {
        return Tail { stray: true, ..t };
    }
    if f.tag == 10 {
        let closing = Closing { at, value: f.value };
        return Tail {
            closing: Some(closing),
            ..t
        };
    }
    Tail {
        stray: t.stray || f.tag == 8 || f.tag == 9 || f.tag == 35,
        ..t
    }
}
