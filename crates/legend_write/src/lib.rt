// What composing writes: the legend into its buffer, the places into the work area.
#![tactic(auto)]

ghost use Rattle.legend_write.specs.Steps.Writing.{StageAsks, PiecesStaged, PlacingAsks, PlacesWritten, WritingAsks, Written};

use layout::{ALL_PLACES, KEPT, PLACES};
use legend_chains::ALL_PIECES;
use trays::{MAX_SLIPS, Tray};

// The pieces of the legend, slip and overlap of each.
pub fn pieces_of(
    work: &[u16],
    left: &[u16],
    right: &[u16],
    overs: &[u16],
    k: usize,
    joins: usize,
) -> [u16; ALL_PIECES]
    requires { StageAsks work.now k joins left.now right.now overs.now }
    ensures { PiecesStaged work.now k joins left.now right.now overs.now result }
{
    let mut pieces = [0u16; ALL_PIECES];
    legend_chains::all_pieces(
        &work[KEPT..KEPT + MAX_SLIPS],
        k,
        left,
        right,
        overs,
        joins + 1,
        &mut pieces,
    );
    pieces
}

// The places of all slips, in the work area: those of the first `k` pieces, then those of the other slips.
fn write_places(tray: Tray<'_>, work: &mut [u16], legend: &[u8], pieces: &[u16], k: usize)
    requires { PlacingAsks tray.letters.now tray.ends.now work.old legend.now pieces.now k }
    ensures { PlacesWritten tray.entry.letters.now tray.entry.ends.now work.old work.new pieces.now k }
{
    tables::clear(work, PLACES, ALL_PLACES);
    legend_places::kept_places(tray, pieces, k, &mut work[PLACES..PLACES + ALL_PLACES]);
    legend_places::aside_places(tray, legend, &mut work[PLACES..PLACES + ALL_PLACES]);
}

// The legend of the first `k` pieces, then the places.
pub fn write_out(
    tray: Tray<'_>,
    work: &mut [u16],
    legend: &mut [u8],
    pieces: &[u16],
    k: usize,
    need: usize,
)
    requires { WritingAsks tray.letters.now tray.ends.now work.old legend.old pieces.now k need }
    ensures { Written tray.entry.letters.now tray.entry.ends.now work.old work.new legend.old legend.new
        pieces.now k }
{
    legend_lay::lay(tray, pieces, 0, k, legend);
    write_places(tray, work, &legend[..need], pieces, k);
}
