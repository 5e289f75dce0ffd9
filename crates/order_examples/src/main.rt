// Some of document 01's examples, T10 as document 02's S-5 has it, through the order check on slices: number, class,
// shape and pairings of each. The file cases/papers.desk has all of them.
#![tactic(auto)]

ghost use Rattle.std.specs.Prelude.{◌≡◌};
ghost use Rattle.rules.specs.Numbers.{check_slices};
ghost use Rattle.rules.specs.Examples.{example_settings, example_market, example_terms};

use answers::said;
use order_check::check_slices;
use rules::OrderAnswer;
use std::io;
use terms::terms_of;

// Every check on, ticks and net increment of a cent, ATDs of 5, 3 percent between presets of 0 and 0.60, 4 set ticks.
const SETTINGS: [u64; 20] = [
    1, 1, 1, 1, 1, 1, 1, 10, 10, 10, 5, 5, 5, 5, 300, 0, 600, 4, 0, 0,
];

// Open, with every value missing.
const MARKET: [u64; 9] = [1, 0, 0, 0, 0, 0, 0, 0, 0];

// Of a limit order with no flags and no shares.
#[tactic(auto, unfolding(rules::specs::Market::settings_of, rules::specs::Market::market_of))]
fn answer_to(symbols: &[u8], counts: &[u8], price: i64) -> OrderAnswer
    ensures { result ≡ check_slices (example_settings 0) example_market (example_terms price) symbols.now counts.now }
{
    let terms = terms_of(price, 0, 0, 0, 0, 0);
    said(check_slices(symbols, counts, terms, &SETTINGS, &MARKET))
}

fn show<P: Print>(rt: &P, case: &str, symbols: &[u8], counts: &[u8], price: i64) -> io::Result<()> {
    let OrderAnswer {
        number,
        class,
        shape,
        pairings,
    } = answer_to(symbols, counts, price);
    println!(rt; "{case}: number {number}, class {class}, shape {shape}, pairings {pairings}")
}

// Counts are 8 bytes each, two's complement, the low byte first.
fn show_butterfly<P: Print>(rt: &P, case: &str, price: i64) -> io::Result<()> {
    show(
        rt,
        case,
        b"XYZ   270115C00020000XYZ   270115C00030000XYZ   270115C00040000",
        b"\xfb\xff\xff\xff\xff\xff\xff\xff\x0a\0\0\0\0\0\0\0\xfb\xff\xff\xff\xff\xff\xff\xff",
        price,
    )
}

fn show_sold<P: Print>(rt: &P, case: &str, price: i64) -> io::Result<()> {
    show(
        rt,
        case,
        b"XYZ   270115C00045000XYZ   270115C00050000",
        b"\xff\xff\xff\xff\xff\xff\xff\xff\xff\xff\xff\xff\xff\xff\xff\xff",
        price,
    )
}

fn show_calendar<P: Print>(rt: &P, case: &str, price: i64) -> io::Result<()> {
    show(
        rt,
        case,
        b"XYZ   270319C00020000XYZ   270618C00020000XYZ   270917C00020000",
        b"\x01\0\0\0\0\0\0\0\xff\xff\xff\xff\xff\xff\xff\xff\x01\0\0\0\0\0\0\0",
        price,
    )
}

fn main(rt: HostRuntime) -> io::Result<()> {
    show_butterfly(&rt, "T1, a butterfly sold that pays 15.00", 15000)?;
    show_butterfly(&rt, "the same, and 15.00 are received", -15000)?;
    show_butterfly(&rt, "the same, and 10.00 are received", -10000)?;
    show_sold(&rt, "T7, two calls sold for 0.020", -20)?;
    show_sold(&rt, "T7, two calls sold for 0.019", -19)?;
    show_calendar(
        &rt,
        "T10, March and September bought and June sold, for 1.00",
        1000,
    )?;
    show_calendar(&rt, "the same, and 1.00 is received", -1000)?;
    show(&rt, "no leg", b"", b"", 1000)
}
