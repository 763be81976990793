// The published call.
ghost use Rattle.std.specs.Prelude.{◌≡◌, length};
ghost use Rattle.grade.specs.Told.{told};
ghost use Rattle.book.specs.Memory.{memory};
ghost use Rattle.margins.specs.Published.{margins_asked};

use crate::judging::judge;
use crate::margin::Margin;
use book::{Head, Line, admit_book};
use grade::{Grade, Refusal};
use search::Tables;

// Each standing line's margin, where the line numbers give a widest route.
pub fn margins<G: Grade>(
    head: &Head,
    first: &[u16],
    lines: &[Line<G>],
    work: &mut [u16],
    numbers: &[u16],
    out: &mut [Margin<G>],
) -> Result<(), Refusal>
    ensures { (told (λ _. tt) result, out.new) ≡ margins_asked G.le (memory head.now first.now lines.now) (length work.old) numbers.now out.old }
{
    if out.len() < usize::from(head.slots) {
        return Err(Refusal::MemoryTooShort);
    }
    admit_book(head, first, lines, work)?;
    let tables = Tables {
        n: head.bridges,
        first,
        lines,
        skip: None,
    };
    judge(&tables, work, numbers, out)
}
