// The sum of a run of values, in which each value and its place count.
use answers::{Found, Join, Place};

const FACTOR: u64 = 65599;

const MODULUS: u64 = 4294967291;

// What goes into a sum.
pub trait Mix {
    fn mixed(&self, sum: u32) -> u32;
}

impl Mix for u32 {
    fn mixed(&self, sum: u32) -> u32 {
        ((u64::from(sum) * FACTOR + u64::from(*self) + 1) % MODULUS) as u32
    }
}

impl Mix for u16 {
    fn mixed(&self, sum: u32) -> u32 {
        u32::from(*self).mixed(sum)
    }
}

impl Mix for u8 {
    fn mixed(&self, sum: u32) -> u32 {
        u32::from(*self).mixed(sum)
    }
}

impl Mix for Join {
    fn mixed(&self, sum: u32) -> u32 {
        go_on(sum, &[self.left, self.right, self.overlap])
    }
}

impl Mix for Place {
    fn mixed(&self, sum: u32) -> u32 {
        let kept = u16::from(self.kept);
        let cells = go_on(sum, &[self.slip, self.place, kept, self.compared]);
        self.side.mixed(cells)
    }
}

impl Mix for Found {
    fn mixed(&self, sum: u32) -> u32 {
        self.slip.mixed(self.end.mixed(sum))
    }
}

// Goes on from a sum.
pub fn go_on<T: Mix>(sum: u32, run: &[T]) -> u32 {
    run.iter().fold(sum, |sum, x| x.mixed(sum))
}

pub fn of<T: Mix>(run: &[T]) -> u32 {
    go_on(0, run)
}
