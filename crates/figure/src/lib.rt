// A signed figure of contracts, bought less sold. A side has a sign: 1 for bought, -1 for sold.
#![tactic(auto)]

ghost use Rattle.std.specs.Prelude.{◌≡◌, cond, ◌≤◌, eqb, pos, nat_abs};
ghost use Rattle.rules.specs.OpenContracts as figures;

// With n contracts more on the side of the sign, or as many fewer on the other.
pub fn adjusted(figure: i64, sign: i64, n: u64) -> i64
    requires { (nat_abs figure ≤ 1000000) × (nat_abs sign ≤ 1) × (n ≤ 1000000) }
    ensures { result ≡ figures.adjusted figure sign n }
{
    figure + sign * n as i64
}

// Whether contracts of the other side are open.
pub fn shows_other(figure: i64, sign: i64) -> bool
    requires { (nat_abs figure ≤ 1000000) × (nat_abs sign ≤ 1) }
    ensures { result ≡ figures.shows_other figure sign }
{
    sign * figure < 0
}

// The figure with which a leg begins, after one of another group or of its own: in a new group nothing is open.
pub fn begun(figure: i64, last: u64, group: u64) -> i64
    ensures { result ≡ cond (eqb last group) figure (pos 0) }
{
    if last == group { figure } else { 0 }
}
