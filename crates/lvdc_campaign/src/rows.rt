//! The rows of a campaign.

ghost use Rattle.std.specs.Prelude.{◌≡◌, ◌≤◌, map, true, IfOk, All};
ghost use Rattle.lvdc_map.specs.Memory.{are_rising, AllThere};
ghost use Rattle.lvdc_plain.specs.Run.{IsOpening};
ghost use Rattle.lvdc_fault.specs.declared.TheConstants.{MOST_TIMES};
ghost use Rattle.lvdc_fault.specs.declared.verdict.Verdict.TheVariants as verdicts;
ghost use Rattle.lvdc_runs.specs.Scripts.{IsScript};
ghost use Rattle.lvdc_campaign.specs.Campaign.{program_of, short_row, rows_of};

use crate::Row;
use crate::bench::NoDevices;
use crate::laws::{admissible_rows_are_same, rows_are_of_a_study};
use lvdc_fault::Named;
use lvdc_machine::Orders;
use lvdc_map::{Banks, Hop, Placed, is_hop_constant, places_words};
use lvdc_study::{Program, study_scripts};
use lvdc_word::NoMemory;
use std::alloc::Global;

/// A campaign opens with words and a HOP constant. The call has no effect.
fn opens_with_words(image: &[Placed], start: Hop, banks: Banks)
    ensures { IsOpening (program_of image.now start banks) }
{
    places_words(image);
    is_hop_constant(start);
}

/// The shorter form of a row.
fn short_row(row: lvdc_study::Row) -> Row
    ensures { result ≡ short_row row }
{
    Row {
        name: row.name,
        verdict: row.verdict,
        same: row.difference.is_none(),
    }
}

/// The shorter form of each row.
fn short_rows(alloc: Global, studied: Vec<lvdc_study::Row>) -> Result<Vec<Row>, NoMemory>
    ensures { IfOk result (λ rows. rows.items ≡ map short_row studied.items) }
{
    let mut rows = Vec::with_capacity(alloc, studied.len())?;
    for row in studied {
        rows.push(short_row(row))?;
    }
    Ok(rows)
}

/// Runs a program under each of these scripts, without devices. The plain run is made once for all of them.
pub fn campaign<'a>(
    alloc: Global,
    image: &'a [Placed],
    start: Hop,
    banks: Banks,
    orders: &'a Orders,
    count: u64,
    scripts: Vec<Named>,
) -> Result<Vec<Row>, NoMemory>
    requires count { count ≤ MOST_TIMES }
    requires rising { are_rising image.now ≡ true }
    requires there { AllThere banks image.now }
    requires scripts { All IsScript scripts.items }

    // The rows of the scripts, in their order. The orders of latching don't matter.
    ensures rows { IfOk result (λ rows. rows.items ≡ rows_of (program_of image.now start banks) count scripts.items) }

    // Each admissible script comes to what the plain run comes to.
    ensures admissible { IfOk result (λ rows. All (λ row. row.verdict ≡ verdicts.Admissible → row.same ≡ true) rows.items) }
{
    admissible_rows_are_same();
    rows_are_of_a_study();
    opens_with_words(image, start, banks);
    let program = Program {
        image,
        start,
        banks,
        unplugs: &[],
        supplies: &[],
        orders,
        count,
    };
    let bench = NoDevices {
        scripts: scripts.len(),
    };
    match study_scripts(alloc, &program, scripts, &bench) {
        Ok(studied) => short_rows(alloc, studied),
        Err(_) => Err(NoMemory),
    }
}
