// The symbol writer.
#![tactic(auto)]

ghost use Rattle.std.specs.Prelude.{◌≡◌};
ghost use Rattle.rules.specs.Symbol.{in_layout, write_symbol};
ghost use Rattle.answers.specs.Answers.{refusal_number, number_of};
ghost use Rattle.writer.specs.Writer.{Handed};

use answers::{Refusal, fail_if};
use root_number::root_bytes;
use roots::is_root;
use rules::SymbolParts;
use symbol::in_limits;
use symbol_bytes::symbol_of;

// Above six bytes a root's number is not written as bytes.
#[tactic(auto, unfolding(rules::specs::Symbol::in_layout))]
fn in_layout(p: SymbolParts) -> bool
    ensures { result ≡ in_layout p }
{
    p.root < 1 << 48 && is_root(&root_bytes(p.root)) && in_limits(p)
}

// Writes the symbol into the buffer's first 21 bytes: all that the buffer holds afterwards is in the contract.
#[tactic(auto, unfolding(rules::specs::Symbol::write_symbol), using(crate::proofs::Laws::layout_fits))]
pub fn fill(p: SymbolParts, buffer: &mut [u8]) -> Result<(), Refusal>
    ensures value { number_of refusal_number result ≡ (write_symbol p buffer.old).number }
    ensures buffer_after { buffer.new ≡ (write_symbol p buffer.old).buffer }
{
    fail_if(buffer.len() < 21, Refusal::ShortBuffer)?;
    fail_if(!in_layout(p), Refusal::BadSymbol)?;
    buffer[..21].copy_from_slice(&symbol_of(p));
    Ok(())
}

// The symbol writer: the leading part of the buffer that holds the symbol, or an empty one, and the number.
#[tactic(auto, using(rules::proofs::Symbols::handed_symbol, rules::proofs::Symbols::handed_nothing))]
pub fn write<'a, 'b>(p: SymbolParts, buffer: &'a mut [u8], number: &'b mut u64) -> &'a mut [u8]
    ensures { Handed p buffer.entry result number.new }
{
    let written = fill(p, buffer);
    *number = answers::number(written);
    if written.is_err() {
        return &mut buffer[..0];
    }
    &mut buffer[..21]
}
