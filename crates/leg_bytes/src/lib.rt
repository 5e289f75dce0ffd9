// A leg of the host's bytes: 21 of the symbol and 8 of the count.
#![tactic(auto)]

ghost use Rattle.std.specs.Prelude.{◌≡◌, length};
ghost use Rattle.rules.specs.Order.{word, raw_leg};

use rules::RawLeg;

// A copy of bytes whose number is known, for an array to keep.
pub fn bytes_of<const N: usize>(bytes: &[u8]) -> [u8; N]
    requires { length bytes.now ≡ N }
    ensures { result ≡ bytes.now }
{
    let mut copy = [0; N];
    copy.copy_from_slice(bytes);
    copy
}

// The count's 8 bytes as one number, the low byte first.
#[tactic(auto, using(crate::proofs::Laws::word_read))]
fn word(count: &[u8]) -> u64
    requires { length count.now ≡ 8 }
    ensures { result ≡ word count.now }
{
    u64::from_le_bytes(bytes_of(count))
}

// One leg. A count from 2^63 up stands for a negative one, whose size is what is missing to 2^64.
#[tactic(auto, unfolding(rules::specs::Order::raw_leg))]
pub fn raw_leg(symbol: &[u8], count: &[u8]) -> RawLeg
    requires { (length symbol.now ≡ 21) × (length count.now ≡ 8) }
    ensures { result ≡ raw_leg symbol.now count.now }
{
    let count = word(count).cast_signed();
    RawLeg {
        bought: count >= 0,
        size: count.unsigned_abs(),
        symbol: bytes_of(symbol),
    }
}
