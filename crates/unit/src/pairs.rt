// The entry for auction pairs: document 02, S-2.
ghost use Rattle.std.specs.Prelude.{◌≡◌};
ghost use Rattle.rules.specs.Market.{settings_of, market_of};
ghost use Rattle.rules.specs.Pair.{check_pair};

use order_check::check_slices;
use pair::paired_answers;
use terms::terms_of;

// Checks both orders of a pair. The agency order's number is the result; the contra order's, and which order passes, are
// lent.
#[tactic(auto, unfolding(rules::specs::Pair::check_pair))]
#[unsafe(no_mangle)]
pub extern "C" fn opc_check_pair(
    agency_symbols: &[u8],
    agency_counts: &[u8],
    agency_price: i64,
    agency_kind: u64,
    agency_stop: u64,
    agency_manual: u64,
    agency_opening: u64,
    agency_shares: i64,
    contra_symbols: &[u8],
    contra_counts: &[u8],
    contra_price: i64,
    contra_kind: u64,
    contra_stop: u64,
    contra_manual: u64,
    contra_opening: u64,
    contra_shares: i64,
    continue_unpaired: u64,
    settings: &[u64],
    market: &[u64],
    contra_number: &mut u64,
    agency_passes: &mut u64,
    contra_passes: &mut u64,
) -> u64
    ensures { record { agency = record { number = result; passes = agency_passes.new }; contra = record { number = contra_number.new; passes = contra_passes.new } } ≡ check_pair (settings_of settings.now) (market_of market.now) continue_unpaired (record { symbols = agency_symbols.now; counts = agency_counts.now; price = agency_price; kind = agency_kind; stop = agency_stop; manual = agency_manual; opening = agency_opening; shares = agency_shares }) (record { symbols = contra_symbols.now; counts = contra_counts.now; price = contra_price; kind = contra_kind; stop = contra_stop; manual = contra_manual; opening = contra_opening; shares = contra_shares }) }
{
    let terms = terms_of(
        agency_price,
        agency_kind,
        agency_stop,
        agency_manual,
        agency_opening,
        agency_shares,
    );
    let agency = check_slices(agency_symbols, agency_counts, terms, settings, market);
    let terms = terms_of(
        contra_price,
        contra_kind,
        contra_stop,
        contra_manual,
        contra_opening,
        contra_shares,
    );
    let contra = check_slices(contra_symbols, contra_counts, terms, settings, market);
    let answer = paired_answers(continue_unpaired, agency, contra);
    *contra_number = answer.contra.number;
    *agency_passes = answer.agency.passes;
    *contra_passes = answer.contra.passes;
    answer.agency.number
}
