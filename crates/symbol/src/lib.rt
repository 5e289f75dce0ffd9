// The symbol reader.
#![tactic(auto)]

ghost use Rattle.std.specs.Prelude.{◌≡◌, true, length};
ghost use Rattle.std.proofs.Math.Seq.{slice};
ghost use Rattle.rules.specs.Numerals.{value};
ghost use Rattle.rules.specs.Symbol.{in_limits, is_root, read_symbol};
ghost use Rattle.answers.specs.Answers.{read_said};

use amounts::within;
use answers::{Refusal, fail_if};
use calendar::day_exists;
use digits::{are_digits, value_of};
use root_number::root_of;
use roots::is_root;
use rules::{Mills, SymbolParts, SymbolRead};

// Whether expiry, type and strike are in their limits.
#[tactic(auto, unfolding(rules::specs::Symbol::in_limits))]
pub fn in_limits(p: SymbolParts) -> bool
    ensures { result ≡ in_limits p }
{
    day_exists(p.year, p.month, p.day)
        && (p.right == 67 || p.right == 80)
        && within(1, 99999999, p.strike.0)
}

// What 21 bytes say whose root is tested, and known as a number. The digits are tested before they are valued, since
// `value_of` takes digits only.
#[tactic(auto, unfolding(rules::specs::Symbol::read_symbol, rules::specs::Symbol::is_symbol, rules::specs::Symbol::parts_of), using(crate::proofs::Laws::year_digits, crate::proofs::Laws::month_digits, crate::proofs::Laws::day_digits))]
pub fn read_after(root: u64, s: &[u8]) -> Result<SymbolParts, Refusal>
    requires { (length s.now ≡ 21) × (root ≡ value 256 0 (slice 0 6 s.now)) × (is_root (slice 0 6 s.now) ≡ true) }
    ensures { read_said result ≡ read_symbol s.now }
{
    fail_if(!are_digits(&s[6..12]), Refusal::BadSymbol)?;
    fail_if(!are_digits(&s[13..21]), Refusal::BadSymbol)?;
    let p = SymbolParts {
        root,
        year: 2000 + value_of(&s[6..8]),
        month: value_of(&s[8..10]),
        day: value_of(&s[10..12]),
        right: u64::from(s[12]),
        strike: Mills(value_of(&s[13..21])),
    };
    fail_if(!in_limits(p), Refusal::BadSymbol)?;
    Ok(p)
}

#[tactic(auto, unfolding(rules::specs::Symbol::read_symbol, rules::specs::Symbol::is_symbol))]
pub fn read(s: &[u8]) -> Result<SymbolParts, Refusal>
    ensures { read_said result ≡ read_symbol s.now }
{
    fail_if(s.len() != 21, Refusal::Not21Bytes)?;
    let root = &s[..6];
    fail_if(!is_root(root), Refusal::BadSymbol)?;
    read_after(root_of(root), s)
}

// The reader's answer in numbers. A refusal has no parts.
pub fn said(read: Result<SymbolParts, Refusal>) -> SymbolRead
    ensures { result ≡ read_said read }
{
    match read {
        Ok(parts) => SymbolRead { number: 0, parts },
        Err(e) => SymbolRead {
            number: u64::from(e),
            parts: SymbolParts {
                root: 0,
                year: 0,
                month: 0,
                day: 0,
                right: 0,
                strike: Mills(0),
            },
        },
    }
}
