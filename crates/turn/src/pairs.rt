// Lines by their numbers, and the line the other way round of each.
ghost use Rattle.std.specs.Prelude.{◌≡◌, ◌≤◌, map, length};
ghost use Rattle.search.specs.Chains.{table_line, numbered};
ghost use Rattle.turn.specs.Doubling.{slots_at, or_zero, partner};

use book::Line;
use grade::Slots;
use search::{Tables, record_at};

// The slots of the line of a number, 0 and not None where there is none: it is a part of a sum.
pub fn slots_at(lines: &[Line<Slots>], number: u16) -> u32
    ensures sum { result ≡ slots_at lines.now number }
    ensures few { result ≤ 1048576 }
{
    record_at(lines, number).map_or(0, |line| line.grade.count())
}

// The slots of the line from one bridge to another, 0 where none stands.
pub fn slots_between(tables: &Tables<'_, Slots>, near: u16, far: u16) -> u32
    ensures { result ≡ slots_at tables.now.lines.now (or_zero (numbered (table_line tables.now.n tables.now.first.now tables.now.lines.now near far))) }
{
    tables
        .number_between(near, far)
        .map_or(0, |number| slots_at(tables.lines, number))
}

// Writes at each line's place the number of the line the other way round.
// 0 for none, not an Option: the partners lie in the working memory that the caller lends.
pub fn pair_up(tables: &Tables<'_, Slots>, partners: &mut [u16])
    requires { length partners.old ≡ length tables.now.lines.now }
    ensures { partners.new ≡ map (partner (table_line tables.now.n tables.now.first.now tables.now.lines.now)) tables.now.lines.now }
{
    for (at, line) in tables.lines.iter().enumerate() {
        partners[at] = tables.number_between(line.far, line.near).unwrap_or(0);
    }
}
