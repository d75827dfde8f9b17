// Lines of the trials: fields decoded, sums over what was lent, and numbers written.
#![tactic(auto)]

mod codes;
pub mod fields;
pub mod room;
pub mod rows;
pub mod sums;
pub mod tray;
pub mod writing;
