// Tables of 16-bit cells at offsets of one lent work area: a cell is read by `at` and written by `put`, a table is cleared, or copied into a list.
#![tactic(auto)]

ghost use Rattle.std.specs.Prelude.{◌≡◌, ◌++◌, ◌+◌, ◌<◌, ◌≤◌, length, take, drop, replicate};
ghost use Rattle.words.specs.Lists.{over};
ghost use Rattle.tables.specs.Copying.{CanCopy};
ghost use Rattle.tables.specs.Tables.{Got, Put, Room, Filled, table};

// What stands in cell `i` of the table at `base`.
pub fn at(work: &[u16], base: usize, i: usize) -> usize
    requires { base + i < length work.now }
    ensures { Got work.now base i result }
{
    usize::from(work[base + i])
}

// Puts `x` into cell `i` of the table at `base`.
pub fn put(work: &mut [u16], base: usize, i: usize, x: usize)
    requires { Room work.old base i x }
    ensures { Put work.old base i x work.new }
{
    work[base + i] = x as u16;
}

// Puts 0 into the `n` cells of the table at `base`.
pub fn clear(work: &mut [u16], base: usize, n: usize)
    requires { base + n ≤ length work.old }
    ensures { Filled base n (replicate n 0) work.old work.new }
{
    work[base..base + n].fill(0);
}

// Copies the first `n` cells of the table at `base` over the first part of `out`. A table of no cells may begin past the work area.
pub fn copy_cells(work: &[u16], base: usize, n: usize, out: &mut [u16])
    requires { CanCopy work.now base n out.old }
    ensures { out.new ≡ over (table work.now base n) out.old }
{
    for i in 0..n {
        out[i] = work[base + i];
    }
}

// Copies all bytes of `from` to the start of `to`, and answers how many these are.
pub fn copy(from: &[u8], to: &mut [u8]) -> usize
    requires { length from.now ≤ length to.old }
    ensures copied { to.new ≡ take (length from.now) from.now ++ drop (length from.now) to.old }
    ensures count { result ≡ length from.now }
{
    to[..from.len()].copy_from_slice(from);
    from.len()
}
