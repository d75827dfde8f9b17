// Finding up to where occurrences are stored: the checks, the counts, and one occurrence after another.
#![tactic(auto)]

ghost use Rattle.std.specs.Prelude.{◌≡◌, ◌<◌};
ghost use Rattle.trays.specs.Told.{verdict, IsTray};
ghost use Rattle.answers.specs.Told.{search_from};
ghost use Rattle.trie_build.specs.Steps.Built.{Buildable};
ghost use Rattle.answers.specs.Finding as F;
ghost use Rattle.find_core.specs.Steps.Searching as T;

use answers::{FindCounts, Found};
use layout::{SCAN, WORK_NEED};
use trays::{Fault, Tray};

// Refusals 1 to 6, 12, 13 and 7, where this many cells are lent: all rows before place C. Answers the tray.
pub fn check_find<'a>(
    letters: &'a [u8],
    ends: &'a [u16],
    text: &[u8],
    cells: usize,
) -> Result<Tray<'a>, Fault>
    ensures fault { verdict result ≡ F.find_before letters.now ends.now text.now cells }
    ensures tray { IsTray letters.entry ends.entry result }
{
    let tray = tray_check::check_tray(letters, ends)?;
    tray_check::check_text(text)?;
    if cells < WORK_NEED {
        return Err(Fault::WorkAreaTooSmall);
    }
    Ok(tray)
}

// The automaton of all slips with the members of each node, output links and tallies. Answers how many nodes have a letter.
fn prepare(tray: Tray<'_>, work: &mut [u16]) -> usize
    requires { Buildable tray.letters.now tray.ends.now work.old }
    ensures { T.Prepared tray.entry.letters.now tray.entry.ends.now work.old result work.new }
{
    let n = tray.ends.len();
    let nodes = trie_build::build(tray, work);
    trie_heads::fill_heads(tray, work, n, nodes);
    trie_outputs::fill_outputs(tray, work, n, nodes);
    nodes
}

// Finding up to where occurrences are stored, of which the list takes `room`: moves and occurrences are counted and 14 is decided before anything is stored; then
// a scan is kept that has read nothing.
pub fn begin(
    tray: Tray<'_>,
    text: &[u8],
    work: &mut [u16],
    room: usize,
) -> Result<FindCounts, Fault>
    requires { T.Clear tray.letters.now tray.ends.now text.now work.old }
    ensures { T.CoreSays tray.entry.letters.now tray.entry.ends.now text.now work.old work.new room (search_from result) }
{
    let n = tray.ends.len();
    let nodes = prepare(tray, work);
    let counts = trie_scan::count_text(tray, text, work, n, nodes);
    let found = counts.found;
    if room < found {
        return Err(Fault::FoundListTooSmall(found as u32));
    }
    trie_scan::start(work, nodes);
    Ok(FindCounts {
        moves: counts.moves as u32,
        count: found as u32,
    })
}

// Occurrence `i`; the scan that the work area keeps goes past it.
pub fn next_found(tray: Tray<'_>, text: &[u8], work: &mut [u16], i: usize) -> Found
    requires { T.Ready tray.letters.now tray.ends.now text.now i work.old }
    ensures { T.Next tray.entry.letters.now tray.entry.ends.now text.now i work.old work.new result }
{
    let n = tray.ends.len();
    let nodes = tables::at(work, SCAN, 0);
    let from = trie_scan::load(work, i);
    let here = trie_scan::advance(tray, text, work, n, nodes, from);
    let next = trie_scan::pass(tray, text, work, n, nodes, here);
    trie_scan::keep(work, next);
    Found {
        end: here.read as u32,
        slip: here.slip as u16,
    }
}
