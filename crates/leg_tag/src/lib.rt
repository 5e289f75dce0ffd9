// A leg's tag, from its symbol's bytes and its side.
#![tactic(auto)]

ghost use Rattle.std.specs.Prelude.{◌≡◌, ◌<◌, length, unwrap_or, IfSome};
ghost use Rattle.std.proofs.Math.Seq.{slice};
ghost use Rattle.rules.specs.Numerals.{value};
ghost use Rattle.rules.specs.Symbol.{is_root};
ghost use Rattle.leg_tag.specs.Known.{IsKnown, tag_at};

use keys::tag_of;
use roots::is_root;
use series::series_of;
use symbol::read_after;

// Whether six bytes, whose number is `root`, are a root. Those of a known root need no test: no others say its number.
fn is_root_after(known: Option<u64>, root: u64, bytes: &[u8]) -> bool
    requires { IfSome known IsKnown × (length bytes.now ≡ 6) × (root ≡ value 256 0 bytes.now) }
    ensures { result ≡ is_root bytes.now }
{
    known == Some(root) || is_root(bytes)
}

// The tag of a leg whose root's number is `root`; none where its symbol is outside the layout. No tag is 0: a year is
// at least 2000.
#[tactic(auto, using(crate::proofs::Tags::root_bad))]
pub fn tag_at(known: Option<u64>, root: u64, s: &[u8], bought: bool) -> Option<u64>
    requires { IfSome known IsKnown × (length s.now ≡ 21) × (root ≡ value 256 0 (slice 0 6 s.now)) }
    ensures tag { unwrap_or result 0 ≡ tag_at s.now bought }
    ensures found { IfSome result (λ t. (0 < t) × (t < 40000000000000000)) }
{
    if !is_root_after(known, root, &s[..6]) {
        return None;
    }
    let p = read_after(root, s).ok()?;
    Some(tag_of(series_of(p), bought))
}
