// Class, shape and pairings of an order's legs.
#![tactic(auto)]

ghost use Rattle.std.specs.Prelude.{◌≡◌, false, ℕ, length};
ghost use Rattle.keys.specs.Tags.{legs_in, ValidTags};
ghost use Rattle.classify.specs.Legs.{IsClassified};

use answers::{Class, Shape};
use class::class_by;
use pairing::both_walks;
use shape::shape_of;
use unit_counts::units;

#[derive(Clone, Copy)]
pub struct Classified {
    pub class: Class,
    pub shape: Shape,
    pub pairings: u64,
}

// The legs come in the first walk's sequence. Their unit counts are put into `counts`; the walks take contracts off
// `left`.
pub fn classify(
    tags: &[u64; 16],
    left: &mut [u64; 16],
    n: usize,
    european: bool,
    counts: &mut [u64; 16],
) -> Classified
    requires { ValidTags n tags.now left.old }
    ensures { (root : ℕ)
        → IsClassified
        european
        (legs_in root false n tags.now left.old)
        (legs_in root false n tags.now counts.new)
        result }
{
    units(&left[..n], &mut counts[..n]);
    let paired = both_walks(&tags[..n], &mut left[..n], european);
    let class = class_by(&tags[..n], &counts[..n], paired.class);
    let shape = shape_of(&tags[..n], &counts[..n]);
    Classified {
        class,
        shape,
        pairings: paired.pairings,
    }
}
