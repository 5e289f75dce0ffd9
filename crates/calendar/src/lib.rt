// The day that exists, in the years 2000 to 2099.
#![tactic(auto)]

ghost use Rattle.std.specs.Prelude.{◌≡◌, ◌≤◌};
ghost use Rattle.rules.specs.Symbol.{leap_day, days_in, day_exists};

use amounts::within;

const MONTH_LENGTHS: [u64; 12] = [31, 28, 31, 30, 31, 30, 31, 31, 30, 31, 30, 31];

#[tactic(auto, unfolding(rules::specs::Symbol::leap_day))]
fn leap_day(year: u64, month: u64) -> u64
    ensures { result ≡ leap_day year month }
{
    u64::from(month == 2 && year % 4 == 0)
}

#[tactic(auto, unfolding(rules::specs::Symbol::days_in), using(rules::proofs::Symbols::month_small, rules::proofs::Symbols::leap_small))]
fn days_in(year: u64, month: u64) -> u64
    requires { (1 ≤ month) × (month ≤ 12) }
    ensures { result ≡ days_in year month }
{
    MONTH_LENGTHS[month as usize - 1] + leap_day(year, month)
}

// Every month has 28 days: most days need no table.
#[tactic(auto, unfolding(rules::specs::Symbol::day_exists), using(crate::proofs::Laws::early_day))]
pub fn day_exists(year: u64, month: u64, day: u64) -> bool
    ensures { result ≡ day_exists year month day }
{
    within(2000, 2099, year)
        && within(1, 12, month)
        && (within(1, 28, day) || within(1, days_in(year, month), day))
}
