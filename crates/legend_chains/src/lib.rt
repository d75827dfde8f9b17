// Chains, read off the lists of neighbours and put one after another as pieces: two numbers each, the slip and the letters that it shares with the slip
// before it in its chain.
#![tactic(auto)]

ghost use Rattle.std.specs.Prelude.{[], ◌∷◌, ◌+◌, ◌*◌, ◌<◌, length, take};
ghost use Rattle.greedy.specs.Legends.{piece};
ghost use Rattle.legend_chains.specs.Pieces.{PiecesBehind};
ghost use Rattle.legend_chains.specs.Chains.{chain_by, chain_of, pieces_by, PiecesAsk};
ghost use Rattle.legend_chains.specs.Steps.Following.{ChainAsks, AddAsks};

use trays::MAX_SLIPS;

// How many numbers the pieces have, two each, and at most one piece for each slip.
pub const ALL_PIECES: usize = 2 * MAX_SLIPS;

// Writes the `m`-th piece.
pub fn put_piece(pieces: &mut [u16], m: usize, slip: usize, shared: usize)
    requires { (2 * m + 1 < length pieces.old) × (slip < 65536) × (shared < 65536) }
    ensures { PiecesBehind (piece slip shared ∷ []) m pieces.old pieces.new (m + 1) }
{
    pieces[2 * m] = slip as u16;
    pieces[2 * m + 1] = shared as u16;
}

// Writes the chain from `slip` on after the first `m` pieces, at most `turns` slips: its first slip shares `shared` letters with the slip before, each
// further one what it shares with its left neighbour. Answers how many pieces there are then.
fn chain_pieces(
    right: &[u16],
    overs: &[u16],
    turns: usize,
    mut slip: usize,
    mut shared: usize,
    pieces: &mut [u16],
    mut m: usize,
) -> usize
    requires { ChainAsks right.now overs.now turns slip shared pieces.old m }
    ensures { PiecesBehind (chain_by right.now overs.now turns slip shared) m pieces.old
        pieces.new result }
{
    for _ in 0..turns {
        if slip == 0 {
            break;
        }
        put_piece(pieces, m, slip, shared);
        shared = usize::from(overs[slip - 1]);
        slip = usize::from(right[slip - 1]);
        m += 1;
    }
    m
}

// The same if `slip` has no left neighbour; nothing otherwise.
fn add_chain(
    left: &[u16],
    right: &[u16],
    overs: &[u16],
    turns: usize,
    slip: usize,
    pieces: &mut [u16],
    m: usize,
) -> usize
    requires { AddAsks left.now right.now overs.now turns slip pieces.old m }
    ensures { PiecesBehind (chain_of left.now right.now overs.now turns slip) m pieces.old
        pieces.new result }
{
    if left[slip - 1] != 0 {
        return m;
    }
    chain_pieces(right, overs, turns, slip, 0, pieces, m)
}

// Writes the chains of the first `n` slips of `kept` that have no left neighbour, one after another: at most `turns` slips each. Answers how many
// pieces they have.
pub fn all_pieces(
    kept: &[u16],
    n: usize,
    left: &[u16],
    right: &[u16],
    overs: &[u16],
    turns: usize,
    pieces: &mut [u16],
) -> usize
    requires { PiecesAsk kept.now n left.now right.now overs.now turns pieces.old }
    ensures { PiecesBehind
        (pieces_by left.now right.now overs.now turns (take n kept.now)) 0 pieces.old
        pieces.new result }
{
    let mut count = 0;
    for slip in &kept[..n] {
        count = add_chain(left, right, overs, turns, usize::from(*slip), pieces, count);
    }
    count
}
