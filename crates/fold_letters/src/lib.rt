// Letters of tray files and text files, filed by the table of folding.
#![tactic(auto)]

ghost use Rattle.std.specs.Prelude.{◌≡◌, map, ◌≤◌, length};
ghost use Rattle.words.specs.Lists.{over};
ghost use Rattle.fold_rule.specs.Folding.{fold};
ghost use Rattle.fold_letters.specs.Steps.Entries.{Folds};

use table::FOLD;

mod table;

// The whole table. A loop takes it once: the compiler would lay out a constant anew for every letter.
fn entries() -> [u8; 256]
    ensures { Folds result }
{
    FOLD
}

// Letters are filed into the first part of a buffer.
pub fn file_letters(from: &[u8], to: &mut [u8])
    requires { length from.now ≤ length to.old }
    ensures { to.new ≡ over (map fold from.now) to.old }
{
    let signs = entries();
    for (i, b) in from.iter().enumerate() {
        to[i] = signs[usize::from(*b)];
    }
}

// Letters are filed where they stand.
pub fn fold_in_place(text: &mut [u8])
    ensures { text.new ≡ map fold text.old }
{
    let signs = entries();
    for b in text.iter_mut() {
        *b = signs[usize::from(*b)];
    }
}
