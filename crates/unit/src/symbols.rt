// The entries for symbols.
ghost use Rattle.std.specs.Prelude.{◌≡◌};
ghost use Rattle.rules.specs.Symbol.{read_symbol, write_symbol};

use rules::{Mills, SymbolParts};
use symbol::said;

// Reads an option symbol. The number is the result; the parts are lent.
#[unsafe(no_mangle)]
pub extern "C" fn opc_read_symbol(
    symbol: &[u8],
    root: &mut u64,
    year: &mut u64,
    month: &mut u64,
    day: &mut u64,
    option_type: &mut u64,
    strike: &mut u64,
) -> u64
    ensures { record { number = result; parts = record { root = root.new; year = year.new; month = month.new; day = day.new; right = option_type.new; strike = record { 0 = strike.new } } } ≡ read_symbol symbol.now }
{
    let answer = said(symbol::read(symbol));
    *root = answer.parts.root;
    *year = answer.parts.year;
    *month = answer.parts.month;
    *day = answer.parts.day;
    *option_type = answer.parts.right;
    *strike = answer.parts.strike.0;
    answer.number
}

// Writes an option symbol into the lent bytes. The result is the length of the part written; the number is lent.
#[unsafe(no_mangle)]
pub extern "C" fn opc_write_symbol(
    root: u64,
    year: u64,
    month: u64,
    day: u64,
    option_type: u64,
    strike: u64,
    out: &mut [u8],
    number: &mut u64,
) -> u64
    ensures { record { number = number.new; handed = result; buffer = out.new } ≡ write_symbol (record { root = root; year = year; month = month; day = day; right = option_type; strike = record { 0 = strike } }) out.old }
{
    let parts = SymbolParts {
        root,
        year,
        month,
        day,
        right: option_type,
        strike: Mills(strike),
    };
    let n = answers::number(writer::fill(parts, out));
    *number = n;
    if n == 0 { 21 } else { 0 }
}
