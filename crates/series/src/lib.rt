// The series that a symbol's parts say.
#![tactic(auto)]

ghost use Rattle.std.specs.Prelude.{◌≡◌, ◌≤◌};
ghost use Rattle.rules.specs.Order.{series_of};

use rules::{Series, SymbolParts};

// The bounds are those of the parts that the symbol reader gives.
pub fn series_of(p: SymbolParts) -> Series
    requires { (p.year ≤ 2099) × (p.month ≤ 12) × (p.day ≤ 31) }
    ensures { result ≡ series_of p }
{
    Series {
        call: p.right == 67,
        expiry: p.year * 10000 + p.month * 100 + p.day,
        strike: p.strike,
    }
}
