// Opens TRAY.TXT and TEXT.TXT and writes the sheet of the text's occurrences. With an argument it says how it is run.
#![tactic(auto)]

use file_rule::{ENDS_NEED, MAX_FILE};
use layout::WORK_NEED;
use sheet_of_files::LISTED;
use sheet_rule::FIND_ROOM;
use std::fs::File;
use std::io::Read;
use std::rt::Files;
use trays::MAX_TEXT;

// Writes the sheet of a tray file and a text file. The sides of the slips are read and left: all slips are looked for.
fn print_sheet<R: Print + Eprint>(rt: &R, tray: &[u8], text: &mut [u8]) {
    let mut letters = [0u8; MAX_FILE];
    let mut ends = [0u16; ENDS_NEED];
    let mut sides = [0u8; ENDS_NEED];
    let mut work = [0u16; WORK_NEED];
    let mut found = [0u32; LISTED];
    let mut out = [0u8; FIND_ROOM];
    let n = sheet_of_files::find_sheet(
        tray,
        text,
        &mut letters,
        &mut ends,
        &mut sides,
        &mut work,
        &mut found,
        &mut out,
    );
    if rt.write_all(&out[..n]).is_err() {
        let _ = rt.eprintln("find: the sheet could not be written");
    }
}

fn no_file(rt: &impl Print) {
    let _ = rt.println("NO FILE");
}

// One byte more than a tray file may have is read, and one more than a text with its final LF, so that longer ones are seen.
fn print_files<R: Print + Eprint, F: Read>(rt: &R, tray: &mut F, text: &mut F) {
    let mut tray_file = [0u8; MAX_FILE + 1];
    let mut text_file = [0u8; MAX_TEXT + 2];
    let tray_came = input::read_all(tray, &mut tray_file);
    let text_came = input::read_all(text, &mut text_file);
    match (tray_came, text_came) {
        (Ok(n), Ok(m)) => print_sheet(rt, &tray_file[..n], &mut text_file[..m]),
        _ => no_file(rt),
    }
}

// Both are opened before either is checked.
fn print_folder<R: Files + Print + Eprint>(rt: &R) {
    let tray = File::open(rt, "TRAY.TXT");
    let text = File::open(rt, "TEXT.TXT");
    match (tray, text) {
        (Ok(mut tray), Ok(mut text)) => print_files(rt, &mut tray, &mut text),
        _ => no_file(rt),
    }
}

fn main(rt: HostRuntime) {
    if input::has_argument(&rt) {
        let _ = rt.eprintln(
            "find takes no argument; run it in the folder that has TRAY.TXT and TEXT.TXT",
        );
        return;
    }
    print_folder(&rt);
}
