// A text read by the automaton of a tray's slips: moves and occurrences are counted, and a scan tells the occurrences one after another.
#![tactic(auto)]

ghost use Rattle.std.specs.Prelude.{◌≡◌, ◌+◌, ◌≤◌, ◌<◌, length};
ghost use Rattle.trays.specs.Slips.{slips_of};
ghost use Rattle.matching.specs.Steps.Nodes.{Num};
ghost use Rattle.layout.specs.Tables.{cell};
ghost use Rattle.layout.specs.Layout as L;
ghost use Rattle.layout.specs.Numbered.{patterns_in};
ghost use Rattle.trie_scan.specs.Steps.Scanning as S;

use layout::SCAN;
use trays::Tray;

// The moves of a text, and how many occurrences it has.
#[derive(Clone, Copy)]
pub struct TextCounts {
    pub moves: usize,
    pub found: usize,
}

// A node and the next of its members to be reported, 0 for none.
// kept: the zeros are those of `Scan`, which the work area keeps in cells; an `Option` would be turned into them at each call
#[derive(Clone, Copy)]
pub struct Report {
    pub node: usize,
    pub slip: usize,
}

// A scan: how many occurrences are reported and letters read, the state after these, and what is to be reported next.
#[derive(Clone, Copy)]
pub struct Scan {
    pub done: usize,
    pub read: usize,
    pub state: usize,
    pub node: usize,
    pub slip: usize,
}

// The moves and the occurrences of the text: a letter and its drops at a time, and at each place the tally of the state.
pub fn count_text(tray: Tray<'_>, text: &[u8], work: &[u16], n: usize, nodes: usize) -> TextCounts
    requires { S.Able tray.letters.now tray.ends.now text.now n nodes work.now }
    ensures { S.TextCountsAre tray.entry.letters.now tray.entry.ends.now text.now result }
{
    let mut state = 0;
    let mut moves = 0;
    let mut found = 0;
    for c in text {
        let next = trie_links::step(tray, work, n, nodes, state, *c);
        state = next.state;
        moves += 1 + next.drops;
        found += tables::at(work, layout::TALLY, state);
    }
    TextCounts { moves, found }
}

// What ends the string of the output link of node `v`.
fn report_behind(tray: Tray<'_>, work: &[u16], n: usize, nodes: usize, v: usize) -> Report
    requires at_node { S.AtNode tray.letters.now tray.ends.now n nodes work.now v }
    requires num { Num (patterns_in tray.letters.now tray.ends.now n work.now) v }
    ensures { S.Reports tray.entry.letters.now tray.entry.ends.now n work.now (cell work.now L.OUT v) result }
{
    let node = tables::at(work, layout::OUT, v);
    let slip = if node == 0 {
        0
    } else {
        tables::at(work, layout::HEAD, node)
    };
    Report { node, slip }
}

// What ends the string of node `v`: the members of its letters first.
fn report_at(tray: Tray<'_>, work: &[u16], n: usize, nodes: usize, v: usize) -> Report
    requires { S.AtNode tray.letters.now tray.ends.now n nodes work.now v }
    ensures { S.Reports tray.entry.letters.now tray.entry.ends.now n work.now v result }
{
    if v == 0 {
        return Report { node: 0, slip: 0 };
    }
    let slip = tables::at(work, layout::HEAD, v);
    if slip != 0 {
        return Report { node: v, slip };
    }
    report_behind(tray, work, n, nodes, v)
}

// One letter more, where nothing is left to be reported.
fn read_letter(tray: Tray<'_>, text: &[u8], work: &[u16], n: usize, nodes: usize, x: Scan) -> Scan
    requires { S.Unread tray.letters.now tray.ends.now text.now n nodes work.now x }
    ensures { S.ReadOn tray.entry.letters.now tray.entry.ends.now text.now n nodes work.now x result }
{
    let state = trie_links::step(tray, work, n, nodes, x.state, text[x.read]).state;
    let report = report_at(tray, work, n, nodes, state);
    Scan {
        done: x.done,
        read: x.read + 1,
        state,
        node: report.node,
        slip: report.slip,
    }
}

// Letters are read until there is something to report.
// kept: how many these are is not known before they are read
pub fn advance(tray: Tray<'_>, text: &[u8], work: &[u16], n: usize, nodes: usize, x: Scan) -> Scan
    requires { S.Ahead tray.letters.now tray.ends.now text.now n nodes work.now x }
    ensures { S.Reached tray.entry.letters.now tray.entry.ends.now text.now n nodes work.now x result }
{
    let mut y = x;
    while y.slip == 0 {
        y = read_letter(tray, text, work, n, nodes, y);
    }
    y
}

// Past the occurrence that is to be reported: to the next member of the same letters, or to the node's output link.
pub fn pass(tray: Tray<'_>, text: &[u8], work: &[u16], n: usize, nodes: usize, x: Scan) -> Scan
    requires { S.Reportable tray.letters.now tray.ends.now text.now n nodes work.now x }
    ensures { S.Passed tray.entry.letters.now tray.entry.ends.now text.now n nodes work.now x result }
{
    let twin = tables::at(work, layout::TWIN, x.slip);
    if twin != 0 {
        return Scan {
            done: x.done + 1,
            slip: twin,
            ..x
        };
    }
    let report = report_behind(tray, work, n, nodes, x.node);
    Scan {
        done: x.done + 1,
        node: report.node,
        slip: report.slip,
        ..x
    }
}

// The scan that the work area keeps, before occurrence `i`.
pub fn load(work: &[u16], i: usize) -> Scan
    requires { S.Loadable work.now }
    ensures { result ≡ S.scan_in work.now i }
{
    let upper = tables::at(work, SCAN, 1);
    let lower = tables::at(work, SCAN, 2);
    Scan {
        done: i,
        read: 65536 * upper + lower,
        state: tables::at(work, SCAN, 3),
        node: tables::at(work, SCAN, 4),
        slip: tables::at(work, SCAN, 5),
    }
}

// Keeps a scan in the work area.
pub fn keep(work: &mut [u16], x: Scan)
    requires { S.CanKeep work.old x }
    ensures { S.Keeps work.old x work.new }
{
    tables::put(work, SCAN, 1, x.read / 65536);
    tables::put(work, SCAN, 2, x.read % 65536);
    tables::put(work, SCAN, 3, x.state);
    tables::put(work, SCAN, 4, x.node);
    tables::put(work, SCAN, 5, x.slip);
}

// Keeps the scan that has read nothing, of an automaton in which `nodes` nodes have a letter.
pub fn start(work: &mut [u16], nodes: usize)
    requires { S.Loadable work.old × (nodes < 65536) }
    ensures { S.ScanStarted work.old nodes work.new }
{
    tables::put(work, SCAN, 0, nodes);
    keep(
        work,
        Scan {
            done: 0,
            read: 0,
            state: 0,
            node: 0,
            slip: 0,
        },
    );
}
