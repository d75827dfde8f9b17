// Room that is lent to a call, as much as a line asks for. It is filled with marks before.
ghost use Rattle.std.specs.Prelude.{◌≡◌, length, min};

// What a byte and a cell hold before the call.
pub const BYTE_MARK: u8 = 7;

pub const CELL_MARK: u16 = 7777;

// So much of a room as a line asks for, and all of it where that is more.
pub fn part<T>(room: &mut [T], asked: u32) -> &mut [T]
    ensures { length result.now ≡ min (length room.old) asked }
{
    let n = room.len().min(asked as usize);
    &mut room[..n]
}
