// A root's six bytes as one number, the first byte highest, and back.
#![tactic(auto)]

ghost use Rattle.std.specs.Prelude.{◌≡◌, ◌<◌, ◌^◌, length};
ghost use Rattle.rules.specs.Numerals.{value, numeral};

// The six bytes as one number.
#[tactic(auto, using(crate::proofs::Laws::root_value))]
pub fn root_of(root: &[u8]) -> u64
    requires { length root.now ≡ 6 }
    ensures { result ≡ value 256 0 root.now }
{
    u64::from_be_bytes([0, 0, root[0], root[1], root[2], root[3], root[4], root[5]])
}

// The number as six bytes.
#[tactic(auto, unfolding(rules::specs::Numerals::numeral))]
pub fn root_bytes(root: u64) -> [u8; 6]
    requires { root < 256 ^ 6 }
    ensures { result ≡ numeral 256 0 6 root }
{
    let [_, _, b0, b1, b2, b3, b4, b5] = root.to_be_bytes();
    [b0, b1, b2, b3, b4, b5]
}
