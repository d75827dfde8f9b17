// The cases of `trials` that ask of a tray: whether it is accepted, its slips, and pairs of these.
#![tactic(auto)]

pub mod ask;
mod calls;
pub mod pairs;
