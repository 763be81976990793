// What is told of each line slot when margins are.
ghost use Rattle.std.specs.Prelude.{◌≡◌, ℕ, ◌<◌, length};
ghost use Rattle.theory.specs.Arcs.{numbered as line_of};
ghost use Rattle.standing.specs.Standing.{standing_from};
ghost use Rattle.answers.specs.Answers.{is_there, slots_at, row as told_row, rows as told_rows};

use book::Line;
use grade::Slots;
use margins::Margin;
use replies::LineMargin;
use search::record_at;

// Whether a line of this number stands.
fn stands(lines: &[Line<Slots>], number: u16) -> bool
    ensures { result ≡ is_there (line_of (standing_from 1 lines.now) number) }
{
    record_at(lines, number).is_some_and(|line| line.stands())
}

// The slots of an end.
fn slots_at(end: Option<Slots>) -> Option<u32>
    ensures { result ≡ slots_at end }
{
    end.map(|grade| grade.count())
}

// What is told of one slot: the ends of its line, where one stands.
fn row(stands: bool, margin: Margin<Slots>) -> Option<LineMargin>
    ensures { result ≡ told_row stands margin }
{
    if !stands {
        return None;
    }
    Some(LineMargin {
        low: slots_at(margin.low),
        high: slots_at(margin.high),
    })
}

// Writes what is told of every slot. The table is the caller's, so that only the reply's text takes memory.
pub fn write_rows(
    lines: &[Line<Slots>],
    margins: &[Margin<Slots>],
    table: &mut [Option<LineMargin>],
)
    requires { (length table.old ≡ length margins.now) × (length table.old < 65535) }
    ensures { table.new ≡ told_rows (λ k. is_there (line_of (standing_from 1 lines.now) k)) 1 margins.now }
{
    for (i, told) in table.iter_mut().enumerate() {
        // `as` cuts nothing: there are fewer than 65,535 rows.
        let number = (i + 1) as u16;
        *told = row(stands(lines, number), margins[i]);
    }
}
