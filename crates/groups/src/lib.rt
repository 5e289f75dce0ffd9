// The needed tags of a message, and their groups: one tag after the other. Document 02, S-1.
#![tactic(auto)]

ghost use Rattle.std.specs.Prelude.{◌≡◌, ◌<◌};
ghost use Rattle.groups.specs.Sequence.{due_tag, outside, among, sequence_step, is_complete};

// What was seen of the needed tags.
#[derive(Clone, Copy)]
pub struct Sequence {
    // 40, 44 and 555 were there.
    pub kind: bool,
    pub price: bool,
    pub legs: bool,
    // The fields of the groups that are still due.
    pub left: u64,
    // A tag was there twice, or out of sequence.
    pub wrong: bool,
}

// The tag that is due where so many fields of the groups are left.
#[tactic(auto, unfolding(crate::specs::Sequence::due_tag))]
fn due_tag(left: u64) -> u64
    ensures { result ≡ due_tag left }
{
    match left % 3 {
        0 => 600,
        2 => 623,
        _ => 624,
    }
}

// A tag among the groups.
#[tactic(auto, unfolding(crate::specs::Sequence::among))]
fn among(q: Sequence, tag: u64) -> Sequence
    requires { 0 < q.left }
    ensures { result ≡ among q tag }
{
    Sequence {
        left: q.left - 1,
        wrong: q.wrong || tag != due_tag(q.left),
        ..q
    }
}

// A tag outside the groups. Most are further tags, which change nothing.
#[tactic(auto, using(crate::proofs::Laws::kind_outside, crate::proofs::Laws::price_outside, crate::proofs::Laws::legs_outside, crate::proofs::Laws::group_outside, crate::proofs::Laws::further_outside))]
fn outside(q: Sequence, tag: u64, legs: u64) -> Sequence
    requires { (q.left ≡ 0) × (legs < 1000000000000000) }
    ensures { result ≡ outside q tag legs }
{
    match tag {
        40 => Sequence {
            kind: true,
            wrong: q.wrong || q.kind,
            ..q
        },
        44 => Sequence {
            price: true,
            wrong: q.wrong || q.price,
            ..q
        },
        555 => Sequence {
            legs: true,
            left: 3 * legs,
            wrong: q.wrong || q.legs,
            ..q
        },
        600 | 623 | 624 => Sequence { wrong: true, ..q },
        _ => q,
    }
}

// The next tag; `legs` is the number of groups where it is 555.
#[tactic(auto, unfolding(crate::specs::Sequence::sequence_step))]
pub fn sequence_step(q: Sequence, tag: u64, legs: u64) -> Sequence
    requires { legs < 1000000000000000 }
    ensures { result ≡ sequence_step q tag legs }
{
    if q.left == 0 {
        outside(q, tag, legs)
    } else {
        among(q, tag)
    }
}

// Whether every needed tag was there once, and in its place.
#[tactic(auto, unfolding(crate::specs::Sequence::is_complete))]
pub fn is_complete(q: Sequence) -> bool
    ensures { result ≡ is_complete q }
{
    q.kind && q.price && q.legs && q.left == 0 && !q.wrong
}
