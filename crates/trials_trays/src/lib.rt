// The cases of `trials` that write a tray: a tray file read, two trays merged.
#![tactic(auto)]

pub mod merge;
pub mod read;
mod written;
