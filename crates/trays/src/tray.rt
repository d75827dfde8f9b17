// Trays that are accepted.
ghost use Rattle.std.specs.Prelude.{◌≡◌};
ghost use Rattle.trays.specs.Faults.{tray_fault};

// An accepted tray: the letters of its slips, and where each slip ends in them.
#[derive(Clone, Copy)]
pub struct Tray<'a> {
    pub letters: &'a [u8],
    pub ends: &'a [u16],
    pub ghost accepted: { (tray_fault letters.now ends.now).number ≡ 0 },
}
