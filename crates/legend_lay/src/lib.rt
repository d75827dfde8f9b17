// Laying: the legend laid piece by piece into a lent buffer.
#![tactic(auto)]

ghost use Rattle.std.specs.Prelude.{◌≡◌, length};
ghost use Rattle.words.specs.Lists.{over};
ghost use Rattle.trays.specs.Slips.{slips_of};
ghost use Rattle.greedy.specs.Legends.{spelled};
ghost use Rattle.legend_chains.specs.Pieces.{piece_in, pieces_in};
ghost use Rattle.legend_lay.specs.Laying.{CanLay};
ghost use Rattle.legend_lay.specs.Steps.OnePiece.{CanLayOne, LaidOne};

use trays::Tray;

// Lays the `k`-th piece: its slip's letters beyond the overlap. Answers how many letters that are.
fn lay_piece(tray: Tray<'_>, pieces: &[u16], k: usize, legend: &mut [u8]) -> usize
    requires { CanLayOne tray.letters.now tray.ends.now pieces.now k (length legend.old) }
    ensures { LaidOne (slips_of tray.entry.letters.now tray.entry.ends.now) (piece_in pieces.now k) legend.old
        legend.new result }
{
    let slip = usize::from(pieces[2 * k]);
    let shared = usize::from(pieces[2 * k + 1]);
    let part = slips::slip_part(tray, slip);
    tables::copy(&part[shared..], legend)
}

// Lays the `n` pieces from the `k`-th on, one behind the other.
pub fn lay(tray: Tray<'_>, pieces: &[u16], k: usize, n: usize, legend: &mut [u8])
    requires { CanLay tray.letters.now tray.ends.now pieces.now k n (length legend.old) }
    ensures { legend.new
        ≡ over (spelled (slips_of tray.entry.letters.now tray.entry.ends.now) (pieces_in pieces.now k n)) legend.old }
{
    let mut here = 0;
    for i in 0..n {
        here += lay_piece(tray, pieces, k + i, &mut legend[here..]);
    }
}
