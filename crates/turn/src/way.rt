// The bridges of the route that the search found, and the lines to turn along it.
ghost use Rattle.std.specs.Prelude.{◌≡◌, ◌+◌, ◌<◌, ◌≤◌, ◌∷◌, ◌++◌, length, drop};
ghost use Rattle.search.specs.Chains.{table_line};
ghost use Rattle.turn.specs.Outcomes.{against, named_by, written};

use crate::pairs::slots_between;
use grade::Slots;
use search::{Tables, write_named};

// Writes the bridges of a route, the start first, and tells how many they are; memory beyond them stays.
pub fn write_bridges(start: u16, row: &[u16], bridges: &mut [u16]) -> usize
    requires { length row.now < length bridges.old }
    ensures count { result ≡ length row.now + 1 }
    ensures after { bridges.new ≡ (start ∷ row.now) ++ drop (length row.now + 1) bridges.old }
{
    let count = row.len() + 1;
    bridges[0] = start;
    bridges[1..count].copy_from_slice(row);
    count
}

// The number of the line from `far` to `near`, where the line the other way has fewer slots than the width.
fn line_against(tables: &Tables<'_, Slots>, width: u32, near: u16, far: u16) -> Option<u16>
    ensures { result ≡ against tables.now.lines.now (table_line tables.now.n tables.now.first.now tables.now.lines.now) width near far }
{
    if slots_between(tables, near, far) < width {
        tables.number_between(far, near)
    } else {
        None
    }
}

// Writes the numbers of the lines to turn from `start` on over a row of bridges, and tells how many they are; memory beyond them stays.
pub fn write_turned(
    tables: &Tables<'_, Slots>,
    width: u32,
    start: u16,
    row: &[u16],
    numbers: &mut [u16],
) -> usize
    requires { length row.now ≤ length numbers.old }
    ensures count { result ≡ length (named_by tables.now.lines.now (table_line tables.now.n tables.now.first.now tables.now.lines.now) width start row.now) }
    ensures after { numbers.new ≡ written (named_by tables.now.lines.now (table_line tables.now.n tables.now.first.now tables.now.lines.now) width start row.now) numbers.old }
{
    write_named(
        |near, far| line_against(tables, width, near, far),
        start,
        row,
        numbers,
    )
}
