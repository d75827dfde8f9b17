// Writing the parts of a line, each with a blank before it.
use crate::sums;

pub fn put(n: u32) {
    io::write_all(1, b" ");
    io::print_decimal(1, u64::from(n));
}

pub fn put_all<T: Copy + Into<u32>>(run: &[T]) {
    for n in run {
        put((*n).into());
    }
}

// A refusal, 0 0 for none.
pub fn refusal(number: u8, detail: u32) {
    put(u32::from(number));
    put(detail);
}

pub fn bracketed(letters: &[u8]) {
    io::write_all(1, b" [");
    io::write_all(1, letters);
    io::write_all(1, b"]");
}

// The sum of the work area after a call that answered `number`: from place C on, which has rows 8, 9, 14 and 20, it may hold anything.
pub fn work(number: u8, cells: &[u16]) {
    match number {
        0 | 8 | 9 | 14 | 20 => {
            io::write_all(1, b" -");
        }
        _ => put(sums::of(cells)),
    }
}
