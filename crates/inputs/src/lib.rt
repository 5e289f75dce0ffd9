// Settings and market as the host hands them in.
#![tactic(auto)]

ghost use Rattle.std.specs.Prelude.{◌≡◌};
ghost use Rattle.rules.specs.Market.{settings_from, settings_of, market_from, market_of};

use rules::{Market, Mills, Settings, Ticks};

fn settings_from(n: &[u64; 20]) -> Settings
    ensures { result ≡ settings_from n.now }
{
    Settings {
        check20: n[0],
        check21: n[1],
        check22: n[2],
        check23: n[3],
        check24: n[4],
        check25: n[5],
        check26: n[6],
        lowtick: Mills(n[7]),
        hightick: Mills(n[8]),
        increment: Mills(n[9]),
        atd0: Ticks(n[10]),
        atd1: Ticks(n[11]),
        atd2: Ticks(n[12]),
        atd3: Ticks(n[13]),
        percentage: n[14],
        presetminimum: Mills(n[15]),
        presetmaximum: Mills(n[16]),
        setticks: Ticks(n[17]),
        adjusted: n[18],
        european: n[19],
    }
}

// Another number of settings has none within its limits.
#[tactic(auto, using(rules::proofs::Handed::settings_whole, rules::proofs::Handed::settings_other))]
pub fn settings_of(n: &[u64]) -> Settings
    ensures { result ≡ settings_of n.now }
{
    settings_from(n.try_into().unwrap_or(&[0; 20]))
}

fn market_from(n: &[u64; 9]) -> Market
    ensures { result ≡ market_from n.now }
{
    Market {
        phase: n[0],
        elsewhere: n[1],
        extended: n[2],
        underlying: Mills(n[3]),
        nbb: Mills(n[4]),
        nbo: Mills(n[5]),
        ownbid: Mills(n[6]),
        ownoffer: Mills(n[7]),
        close: Mills(n[8]),
    }
}

// Another number of values is no market: no phase is 3.
#[tactic(auto, using(rules::proofs::Handed::market_whole, rules::proofs::Handed::market_other))]
pub fn market_of(n: &[u64]) -> Market
    ensures { result ≡ market_of n.now }
{
    market_from(n.try_into().unwrap_or(&[3, 0, 0, 0, 0, 0, 0, 0, 0]))
}
