// Numbers held to limits.
#![tactic(auto)]

ghost use Rattle.std.specs.Prelude.{◌≡◌};
ghost use Rattle.rules.specs.Limits.{within};

pub fn within(least: u64, most: u64, x: u64) -> bool
    ensures { result ≡ within least most x }
{
    least <= x && x <= most
}
