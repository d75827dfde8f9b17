// The calls for other languages: a slice is a pointer and a length, and the answer is a list of numbers behind a pointer.
#![tactic(auto)]

ghost use Rattle.kotsghane.specs.Numbers.{SlipExported, PairExported, ReadExported, MergeExported, IndexExported, BeginningExported};
ghost use Rattle.answers.specs.Exported.{ComposeExported, FindExported, ShortestExported};

use answers::{Composed, Search, Shortest};
use trays::{Located, Pair, Refusal, Settings, Written};

// Composing the side named, where overlaps of fewer letters than the least count as empty. A join is three numbers (left slip, right slip, overlap), a record
// of places five (the slip, its place, 1 if it is kept, the letters compared to find the place, and the side). The answer's number, detail, slips, kept slips,
// kept letters, saved letters, legend letters and joins are eight numbers.
#[unsafe(no_mangle)]
pub extern "C" fn kotsghane_compose(
    letters: &[u8],
    ends: &[u16],
    sides: &[u8],
    least: u32,
    side: u8,
    work: &mut [u16],
    legend: &mut [u8],
    joins: &mut [u16],
    places: &mut [u16],
    answer: &mut [u32; 8],
)
    ensures { ComposeExported least side letters.now ends.now sides.now work.old work.new
        legend.old legend.new joins.old joins.new places.old places.new answer.new }
{
    let settings = Settings { least, side };
    let composed = flat_calls::compose_flat(
        letters, ends, sides, settings, work, legend, joins, places,
    );
    let r = Composed::from(composed);
    *answer = [
        u32::from(r.number),
        r.detail,
        r.slips,
        r.kept,
        r.letters,
        r.saved,
        r.legend,
        r.joins,
    ];
}

// The shortest legend of the side named, by the same overlaps. The answer's number, detail, legend letters, count of kept slips and the ten numbers of their
// order are fourteen numbers.
#[unsafe(no_mangle)]
pub extern "C" fn kotsghane_shortest(
    letters: &[u8],
    ends: &[u16],
    sides: &[u8],
    least: u32,
    side: u8,
    work: &mut [u16],
    legend: &mut [u8],
    answer: &mut [u32; 14],
)
    ensures { ShortestExported least side letters.now ends.now sides.now work.old work.new
        legend.old legend.new answer.new }
{
    let settings = Settings { least, side };
    let shortest = shortest_legend::shortest_legend(letters, ends, sides, settings, work, legend);
    let r = Shortest::from(shortest);
    let order = r.order;
    *answer = [
        u32::from(r.number),
        r.detail,
        r.legend,
        r.count,
        u32::from(order[0]),
        u32::from(order[1]),
        u32::from(order[2]),
        u32::from(order[3]),
        u32::from(order[4]),
        u32::from(order[5]),
        u32::from(order[6]),
        u32::from(order[7]),
        u32::from(order[8]),
        u32::from(order[9]),
    ];
}

// Finding. An occurrence is two numbers (end place, slip); the answer's number, detail, moves and count of occurrences are four numbers.
#[unsafe(no_mangle)]
pub extern "C" fn kotsghane_find(
    letters: &[u8],
    ends: &[u16],
    text: &[u8],
    work: &mut [u16],
    found: &mut [u32],
    answer: &mut [u32; 4],
)
    ensures { FindExported letters.now ends.now text.now work.old work.new
        found.old found.new answer.new }
{
    let r = Search::from(flat_calls::find_flat(letters, ends, text, work, found));
    *answer = [u32::from(r.number), r.detail, r.moves, r.count];
}

// Where the letters of one slip start and end in those of the tray: number, detail, start and end are four numbers.
#[unsafe(no_mangle)]
pub extern "C" fn kotsghane_slip(letters: &[u8], ends: &[u16], slip: u32, answer: &mut [u32; 4])
    ensures { SlipExported letters.now ends.now slip answer.new }
{
    let r = Located::from(tray_ask::slip_place(letters, ends, slip));
    *answer = [u32::from(r.number), r.detail, r.start, r.end];
}

// The overlap of a pair of slips, by the same rule, none if they are of different sides: number, detail and the letters shared are three numbers.
#[unsafe(no_mangle)]
pub extern "C" fn kotsghane_pair(
    letters: &[u8],
    ends: &[u16],
    sides: &[u8],
    left: u32,
    right: u32,
    least: u32,
    answer: &mut [u32; 3],
)
    ensures { PairExported least letters.now ends.now sides.now left right answer.new }
{
    let r = Pair::from(tray_ask::pair_overlap(letters, ends, sides, left, right, least));
    *answer = [u32::from(r.number), r.detail, r.letters];
}

// Reading a tray file into lent letters, ends and sides: number, detail, letters and slips are four numbers.
#[unsafe(no_mangle)]
pub extern "C" fn kotsghane_read_tray(
    file: &[u8],
    letters: &mut [u8],
    ends: &mut [u16],
    sides: &mut [u8],
    answer: &mut [u32; 4],
)
    ensures { ReadExported file.now letters.old letters.new ends.old ends.new
        sides.old sides.new answer.new }
{
    let r = Written::from(file_read::read_tray(file, letters, ends, sides));
    *answer = [u32::from(r.number), r.detail, r.letters, r.slips];
}

// Merging two trays into lent letters, ends and sides: the same four numbers.
#[unsafe(no_mangle)]
pub extern "C" fn kotsghane_merge(
    letters1: &[u8],
    ends1: &[u16],
    sides1: &[u8],
    letters2: &[u8],
    ends2: &[u16],
    sides2: &[u8],
    letters: &mut [u8],
    ends: &mut [u16],
    sides: &mut [u8],
    answer: &mut [u32; 4],
)
    ensures { MergeExported letters1.now ends1.now sides1.now letters2.now ends2.now
        sides2.now letters.old letters.new ends.old ends.new sides.old sides.new
        answer.new }
{
    let merged = Written::from(merge_trays::merge_trays(
        letters1, ends1, sides1, letters2, ends2, sides2, letters, ends, sides,
    ));
    *answer = [
        u32::from(merged.number),
        merged.detail,
        merged.letters,
        merged.slips,
    ];
}

// Building the index of beginnings in a lent list: number and detail are two numbers.
#[unsafe(no_mangle)]
pub extern "C" fn kotsghane_index(
    letters: &[u8],
    ends: &[u16],
    sides: &[u8],
    index: &mut [u16],
    answer: &mut [u32; 2],
)
    ensures { IndexExported letters.now ends.now sides.now index.old index.new
        answer.new }
{
    let built = Refusal::from(tray_index::build_index(letters, ends, sides, index));
    *answer = [u32::from(built.number), built.detail];
}

// Where the slips that start with the typed letters start and end in the index: number, detail, start and end are four numbers.
#[unsafe(no_mangle)]
pub extern "C" fn kotsghane_beginning(
    letters: &[u8],
    ends: &[u16],
    sides: &[u8],
    index: &[u16],
    typed: &[u8],
    answer: &mut [u32; 4],
)
    ensures { BeginningExported letters.now ends.now sides.now index.now typed.now
        answer.new }
{
    let found = Located::from(tray_index::beginning_place(letters, ends, sides, index, typed));
    *answer = [
        u32::from(found.number),
        found.detail,
        found.start,
        found.end,
    ];
}
