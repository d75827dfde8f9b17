// Reads a tray file on standard input and writes the sheets of its sides. With an argument it says how it is run.
#![tactic(auto)]

use file_rule::{ENDS_NEED, MAX_FILE};
use layout::WORK_NEED;
use sheet_rule::COMPOSE_ROOM;
use trays::MAX_LETTERS;

// Writes the sheets of a file. There are as many sides as ends.
fn print_sheet<R: Print + Eprint>(rt: &R, file: &[u8]) {
    let mut letters = [0u8; MAX_FILE];
    let mut ends = [0u16; ENDS_NEED];
    let mut sides = [0u8; ENDS_NEED];
    let mut work = [0u16; WORK_NEED];
    let mut legend = [0u8; MAX_LETTERS];
    let mut out = [0u8; COMPOSE_ROOM];
    let n = sheet_of_files::compose_sheet(
        file,
        &mut letters,
        &mut ends,
        &mut sides,
        &mut work,
        &mut legend,
        &mut out,
    );
    if rt.write_all(&out[..n]).is_err() {
        let _ = rt.eprintln("compose: the sheet could not be written");
    }
}

// One byte more than a tray file may have is read, so that a longer one is seen.
fn print_input(rt: &HostRuntime) {
    let mut file = [0u8; MAX_FILE + 1];
    match input::read_all(&mut rt.stdin(), &mut file) {
        Ok(n) => print_sheet(rt, &file[..n]),
        Err(_) => {
            let _ = rt.println("NO FILE");
        }
    }
}

fn main(rt: HostRuntime) {
    if input::has_argument(&rt) {
        let _ = rt.eprintln("compose takes no argument; run it as: compose < TRAY-FILE");
        return;
    }
    print_input(&rt);
}
