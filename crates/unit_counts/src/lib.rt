// The counts divided by their greatest common divisor.
#![tactic(auto)]

ghost use Rattle.std.specs.Prelude.{◌≡◌, List, map, ◌≤◌, length};
ghost use Rattle.rules.specs.declared.Leg.{Leg};
ghost use Rattle.rules.specs.Lists.{All};
ghost use Rattle.rules.specs.Order.{gcd, common_divisor, units};

// The greatest common divisor of two numbers: the second falls at each call.
#[tactic(auto, using(laws::proofs::Divisor::gcd_zero, laws::proofs::Divisor::gcd_step))]
pub fn gcd(a: u64, b: u64) -> u64
    ensures { result ≡ gcd a b }
{
    if b == 0 { a } else { gcd(b, a % b) }
}

// The greatest common divisor of the counts, from the last leg to the first.
pub fn common_divisor(sizes: &[u64]) -> u64
    ensures { (ls : List Leg) → map (λ l. l.size) ls ≡ sizes.now → result ≡ common_divisor ls }
{
    sizes
        .iter()
        .rev()
        .fold(0, |divisor, &size| gcd(size, divisor))
}

// The unit counts of the legs whose counts are given. Every leg must have contracts, so that the divisor is not 0.
#[tactic(auto, using(loops::proofs::Filling::fill_turn))]
pub fn units(sizes: &[u64], counts: &mut [u64])
    requires { (length counts.old ≡ length sizes.now) × All (λ s. 1 ≤ s) sizes.now }
    ensures { (ls : List Leg) → map (λ l. l.size) ls ≡ sizes.now → map (λ l. l.size) (units ls) ≡ counts.new }
{
    let divisor = common_divisor(sizes);
    for (i, size) in sizes.iter().enumerate() {
        counts[i] = size / divisor;
    }
}
