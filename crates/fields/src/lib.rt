// The fields of a FIX message, by their places: document 02, S-1.
#![tactic(auto)]

ghost use Rattle.std.specs.Prelude.{◌≡◌, ◌==◌, position, length, take};
ghost use Rattle.std.specs.Iterator.{item_count};
ghost use Rattle.std.proofs.Math.Seq.{slice};
ghost use Rattle.rules.specs.Fix.{leading_digits, is_field};
ghost use Rattle.fields.specs.Fields.{Inside, field_at};
ghost use Rattle.fields.specs.Steps.{tag_in, fields_left, ReadsField};

// The places of a value in a message.
#[derive(Clone, Copy)]
pub struct Span {
    pub start: usize,
    pub end: usize,
}

impl Span {
    // The bytes that stand there.
    #[tactic(auto, using(crate::proofs::Laws::lent))]
    pub fn of<'a>(self, message: &'a [u8]) -> &'a [u8]
        requires { Inside (length message.now) self }
        ensures { result.now ≡ slice self.start self.end message.now }
    {
        &message[self.start..self.end]
    }
}

// A field's tag, the places of its value, and the place behind its byte 1.
#[derive(Clone, Copy)]
pub struct Field {
    pub tag: u64,
    pub value: Span,
    pub next: usize,
}

// A tag's number, and how many digits it has.
#[derive(Clone, Copy)]
struct Tag {
    number: u64,
    digits: usize,
}

// Whether bytes whose first ten have so many digits in front begin with a tag: a digit that is not 0, up to eight more,
// and =.
#[tactic(auto, using(crate::proofs::Tags::no_digit, crate::proofs::Tags::ten_digits, crate::proofs::Tags::digit_inside, crate::proofs::Tags::not_nought, crate::proofs::Tags::not_cut, crate::proofs::Tags::tag_stands))]
fn has_tag(s: &[u8], digits: usize) -> bool
    requires { digits ≡ leading_digits (take 10 s.now) }
    ensures { result ≡ is_field s.now }
{
    if digits < 1 || 9 < digits {
        return false;
    }
    s[0] != b'0' && digits < s.len() && s[digits] == b'='
}

// The tag that the bytes begin with. The tenth byte is the last that may be its =.
#[tactic(auto, using(crate::proofs::Digits::other))]
fn tag_in(s: &[u8]) -> Option<Tag>
    ensures { result ≡ tag_in s.now }
{
    let mut number = 0;
    for digits in 0..10 {
        let b = *s.get(digits)?;
        if !b.is_ascii_digit() {
            let tag = Tag { number, digits };
            return if has_tag(s, digits) { Some(tag) } else { None };
        }
        number = number * 10 + u64::from(b - b'0');
    }
    None
}

// The place of the first byte 1: a byte at a turn.
fn value_len_near(s: &[u8]) -> Option<usize>
    ensures { result ≡ position (λ b. b == 1) s.now }
{
    s.iter().position(|b| *b == 1)
}

// The same, four bytes at a turn as long as there are four: most bytes of a message are passed so.
fn value_len(s: &[u8]) -> Option<usize>
    ensures { result ≡ position (λ b. b == 1) s.now }
{
    let (fours, rest) = s.as_chunks::<4>();
    for (i, four) in fours.iter().enumerate() {
        if let Some(n) = value_len_near(four) {
            return Some(4 * i + n);
        }
    }
    let n = value_len_near(rest)?;
    Some(4 * fours.len() + n)
}

// The field at the place `at`. It is kept out of its callers, where the turns over a value's bytes would take longer.
#[inline(never)]
#[tactic(auto, using(crate::proofs::Laws::behind, crate::proofs::Reading::past_end, crate::proofs::Reading::start_inside, crate::proofs::Reading::no_tag))]
pub fn next_field(message: &[u8], at: usize) -> Option<Field>
    ensures { result ≡ field_at message.now at }
{
    if message.len() < at {
        return None;
    }
    let tag = tag_in(&message[at..])?;
    let start = at + tag.digits + 1;
    let end = start + value_len(&message[start..])?;
    let value = Span { start, end };
    Some(Field {
        tag: tag.number,
        value,
        next: end + 1,
    })
}

// A field reader: a message, and its position between two fields. It gives one field after the other.
#[derive(Clone, Copy)]
pub struct Fields<'a> {
    pub message: &'a [u8],
    pub at: usize,
}

impl<'a> Iterator for Fields<'a> {
    type Item = Field;

    ghost next_gives = { ReadsField };

    ghost remaining = { item_count fields_left };

    #[tactic(auto, using(crate::proofs::Laws::none_left, crate::proofs::Laws::one_left))]
    fn next(&mut self) -> Option<Field> {
        let f = next_field(self.message, self.at)?;
        self.at = f.next;
        Some(f)
    }
}
