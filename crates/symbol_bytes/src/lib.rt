// The bytes of a symbol, from its parts.
#![tactic(auto)]

ghost use Rattle.std.specs.Prelude.{◌≡◌};
ghost use Rattle.rules.specs.Symbol.{symbol_of};
ghost use Rattle.symbol_bytes.specs.Parts.{Fits};

use digits::digits_of;
use root_number::root_bytes;
use rules::SymbolParts;

#[tactic(auto, unfolding(rules::specs::Symbol::symbol_of, rules::specs::Numerals::numeral))]
pub fn symbol_of(p: SymbolParts) -> [u8; 21]
    requires { Fits p }
    ensures { result ≡ symbol_of p }
{
    let [r0, r1, r2, r3, r4, r5] = root_bytes(p.root);
    let [y0, y1] = digits_of::<2>(p.year - 2000);
    let [m0, m1] = digits_of::<2>(p.month);
    let [d0, d1] = digits_of::<2>(p.day);
    let [k0, k1, k2, k3, k4, k5, k6, k7] = digits_of::<8>(p.strike.0);
    let right = p.right as u8;
    [
        r0, r1, r2, r3, r4, r5, y0, y1, m0, m1, d0, d1, right, k0, k1, k2, k3, k4, k5, k6, k7,
    ]
}
