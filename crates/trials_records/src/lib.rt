// Composing and finding for callers that hold their lists as arrays: each array is taken by value, lent for the call, and handed back.
#![tactic(auto)]

ghost use Rattle.answers.specs.Records.{ComposeSays};
ghost use Rattle.answers.specs.Finding.{FindSays};
ghost use Rattle.answers.specs.Told.{composed_from, search_from};

use answers::{ComposeCounts, FindCounts, Found, Join, Place};
use trays::{Fault, Settings};

// The answer of composing, and the two lists after the call. Many a tray overfills lists of two records.
#[derive(Drop)]
pub struct Composition<const N: usize> {
    pub answer: Result<ComposeCounts, Fault>,
    pub joins: [Join; N],
    pub places: [Place; N],
}

// The answer of finding, and the list after the call.
#[derive(Drop)]
pub struct Finding<const N: usize> {
    pub answer: Result<FindCounts, Fault>,
    pub found: [Found; N],
}

pub fn compose<const N: usize>(
    letters: &[u8],
    ends: &[u16],
    sides: &[u8],
    settings: Settings,
    work: &mut [u16],
    legend: &mut [u8],
    mut joins: [Join; N],
    mut places: [Place; N],
) -> Composition<N>
    ensures { ComposeSays settings letters.now ends.now sides.now work.old work.new
        legend.old legend.new joins.entry result.joins places.entry result.places (composed_from result.answer) }
{
    let answer = compose_tray::compose_tray(
        letters,
        ends,
        sides,
        settings,
        work,
        legend,
        &mut joins,
        &mut places,
    );
    Composition {
        answer,
        joins,
        places,
    }
}

pub fn find<const N: usize>(
    letters: &[u8],
    ends: &[u16],
    text: &[u8],
    work: &mut [u16],
    mut found: [Found; N],
) -> Finding<N>
    ensures { FindSays letters.now ends.now text.now work.old work.new
        found.entry result.found (search_from result.answer) }
{
    let answer = find_slips::find_slips(letters, ends, text, work, &mut found);
    Finding { answer, found }
}
