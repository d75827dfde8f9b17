// Trays that are accepted, with a side for each slip.
ghost use Rattle.std.specs.Prelude.{◌≡◌, length};

use trays::Tray;

// An accepted tray, and the sides of its slips.
#[derive(Clone, Copy)]
pub struct Sided<'a> {
    pub tray: Tray<'a>,
    pub sides: &'a [u8],
    pub ghost as_many: { length sides.now ≡ length tray.ends.now },
}
