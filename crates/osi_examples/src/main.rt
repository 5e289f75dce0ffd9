// Writes and reads option symbols through the library, the writer's own form with its part of the lent buffer.
#![tactic(auto)]

use rules::{Mills, SymbolParts};
use std::io;
use std::io::Write;
use symbol::said;

// "SPX   " and "LAMR  " as numbers, the first byte highest.
const SPX: u64 = 91604540989472;

const LAMR: u64 = 83843353813024;

fn symbol_of(root: u64, year: u64, month: u64, day: u64, right: u64, strike: u64) -> SymbolParts {
    SymbolParts {
        root,
        year,
        month,
        day,
        right,
        strike: Mills(strike),
    }
}

// Writes the parts into the lent bytes, prints the part handed back between bars and the number, then what the reader
// says of it.
fn show<W: Write>(out: &mut W, parts: SymbolParts, lent: &mut [u8]) -> io::Result<()> {
    let mut number: u64 = 99;
    let part = writer::write(parts, lent, &mut number);
    let back = said(symbol::read(part));
    let read = back.number;
    let strike = back.parts.strike.0;
    out.write_all(b"|")?;
    out.write_all(part)?;
    write!(out, "| {number} read {read} strike {strike}")
}

// The whole buffer is printed after the call, since the writer's contract is silent on the bytes after the part.
fn show_buffer<W: Write>(out: &mut W, buffer: &[u8]) -> io::Result<()> {
    out.write_all(b" in ")?;
    out.write_all(buffer)?;
    out.write_all(b"\n")
}

// More bytes than a symbol has.
fn show_in_24<W: Write>(out: &mut W, parts: SymbolParts) -> io::Result<()> {
    let mut buffer = [46u8; 24];
    show(out, parts, &mut buffer)?;
    show_buffer(out, &buffer)
}

// One byte too few.
fn show_in_20<W: Write>(out: &mut W, parts: SymbolParts) -> io::Result<()> {
    let mut buffer = [46u8; 20];
    show(out, parts, &mut buffer)?;
    show_buffer(out, &buffer)
}

fn main(rt: HostRuntime) -> io::Result<()> {
    let mut out = rt.stdout();
    show_in_24(&mut out, symbol_of(SPX, 2014, 11, 22, 80, 19500))?;
    show_in_24(&mut out, symbol_of(LAMR, 2015, 1, 17, 67, 52500))?;
    show_in_24(&mut out, symbol_of(LAMR, 2000, 2, 29, 67, 1))?;
    show_in_24(&mut out, symbol_of(LAMR, 2001, 2, 29, 67, 1))?;
    show_in_24(&mut out, symbol_of(SPX, 2099, 12, 31, 80, 99999999))?;
    show_in_24(&mut out, symbol_of(SPX, 2099, 12, 31, 80, 100000000))?;
    show_in_20(&mut out, symbol_of(SPX, 2014, 11, 22, 80, 19500))
}
