// Finding: every occurrence of every slip in a text, and the moves of the automaton over it.
#![tactic(auto)]

ghost use Rattle.std.specs.Prelude.{◌≡◌, ◌+◌, ◌≤◌, ◌<◌, length};
ghost use Rattle.words.specs.Lists.{over};
ghost use Rattle.store_loops.specs.Firsts.{firsts};
ghost use Rattle.answers.specs.Told.{search_from};
ghost use Rattle.answers.specs.Finding as F;
ghost use Rattle.find_core.specs.Steps.Searching as T;

use answers::{FindCounts, Found};
use trays::{Fault, Tray};

// The first `count` occurrences, stored from the start of the list.
fn scan_found(tray: Tray<'_>, text: &[u8], work: &mut [u16], found: &mut [Found], count: usize)
    requires { (count ≤ length found.old) × T.Enough tray.letters.now tray.ends.now text.now count work.old }
    ensures { (found.new ≡ over (firsts (T.found_at tray.entry.letters.now tray.entry.ends.now text.now) count) found.old)
        × T.Left tray.entry.letters.now tray.entry.ends.now text.now count work.old work.new }
{
    for i in 0..count {
        found[i] = find_core::next_found(tray, text, &mut *work, i);
    }
}

// Every occurrence of every slip of a tray in a text, into a lent list of records.
pub fn find_slips(
    letters: &[u8],
    ends: &[u16],
    text: &[u8],
    work: &mut [u16],
    found: &mut [Found],
) -> Result<FindCounts, Fault>
    ensures { F.FindSays letters.now ends.now text.now work.old work.new
        found.old found.new (search_from result) }
{
    let tray = find_core::check_find(letters, ends, text, work.len())?;
    let counts = find_core::begin(tray, text, &mut *work, found.len())?;
    scan_found(tray, text, work, found, counts.count as usize);
    Ok(counts)
}
