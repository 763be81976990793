// The load of a slots book.
ghost use Rattle.std.specs.Prelude.{◌≡◌, ◌≤◌, length};
ghost use Rattle.grade.specs.Told.{told};
ghost use Rattle.book.specs.Memory.{memory};
ghost use Rattle.grade.specs.Kinds.{slots_of};
ghost use Rattle.turn.specs.Loads.{load_of, loading};

use book::{Head, Line, admit_book};
use grade::{Refusal, Slots};

// The sum of the slots of all standing lines, taken by line number.
fn sum_slots(lines: &[Line<Slots>]) -> u32
    requires { length lines.now ≤ 1024 }
    ensures { result ≡ load_of slots_of lines.now }
{
    let mut sum = 0;
    for line in lines {
        if line.stands() {
            sum += line.grade.count();
        }
    }
    sum
}

// The load of the book: how many slots its standing lines have together.
pub fn load(
    head: &Head,
    first: &[u16],
    lines: &[Line<Slots>],
    work: &mut [u16],
) -> Result<u32, Refusal>
    ensures { told (λ s. s) result ≡ loading slots_of (memory head.now first.now lines.now) (length work.old) }
{
    admit_book(head, first, lines, work)?;
    Ok(sum_slots(lines))
}
