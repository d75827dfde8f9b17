// The room that calls which write a legend are lent.
use trays::Settings;
use trials_lines::fields::Fields;

// More cells and bytes than a work area and a legend have in a case.
pub const WORK: usize = 32100;

pub const LEGEND: usize = 2100;

// The settings, and how many cells and bytes are lent.
#[derive(Clone, Copy)]
pub struct Rooms {
    pub settings: Settings,
    pub work: u32,
    pub legend: u32,
}

impl Rooms {
    // The next fields, where this side is named.
    pub fn of(fields: &mut Fields, side: u8) -> Rooms {
        Rooms {
            settings: Settings {
                least: fields.number(),
                side,
            },
            work: fields.number(),
            legend: fields.number(),
        }
    }
}
