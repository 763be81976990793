// A survey from a start: the book is emptied, and the lines that the reachable bridges tell are laid.
ghost use Rattle.std.specs.Prelude.{◌≡◌, ◌+◌, ◌<◌, ◌≤◌, true, length, take};
ghost use Rattle.grade.specs.Told.{told};
ghost use Rattle.book.specs.Memory.{memory};
ghost use Rattle.book.specs.Lawful.{lawful};
ghost use Rattle.field.specs.Meaning.{entries};
ghost use Rattle.survey.specs.Laying.{ReadyList, ReadyLists};
ghost use Rattle.survey.specs.Recording.{lay_all, recorded_over, surveying};
ghost use Rattle.survey.specs.Walk.{lines_from, recorded, walked, StopsRight, WalksAll};

use crate::walk::{Limits, walk};
use book::{Head, Line, admit_book, start_afresh};
use field::Field;
use grade::Refusal;
use lines::place_line;

// Lays the lines of one bridge's list, in their order. Here and below, that the field tells the same afterwards is a fact of two moments, and
// so a clause.
fn lay_list<F: Field>(
    head: &mut Head,
    first: &mut [u16],
    lines: &mut [Line<F::Kind>],
    field: &mut F,
    near: u16,
)
    requires { ReadyList (memory head.old first.old lines.old) near (entries (F.tells field.old near)) }
    ensures laid { memory head.new first.new lines.new ≡ lay_all (memory head.old first.old lines.old) (lines_from near (entries (F.tells field.old near))) }
    ensures same { F.tells field.new ≡ F.tells field.old }
{
    let Ok(length) = field.ask_listing(near) else {
        return;
    };
    let mut last = 0;
    for k in 1..=u16::from(length) {
        let Some(far) = field.ask_far(near, k) else {
            unreachable!();
        };
        let Some(grade) = field.ask_grade(near, k) else {
            unreachable!();
        };
        last = place_line(head, first, lines, near, far, grade, last);
    }
}

// Lays the lines of some bridges, bridge after bridge.
fn lay_lists<F: Field>(
    head: &mut Head,
    first: &mut [u16],
    lines: &mut [Line<F::Kind>],
    field: &mut F,
    order: &[u16],
)
    requires { ReadyLists (F.tells field.old) (memory head.old first.old lines.old) order.now }
    ensures laid { memory head.new first.new lines.new ≡ lay_all (memory head.old first.old lines.old) (recorded (F.tells field.old) order.now) }
    ensures same { F.tells field.new ≡ F.tells field.old }
{
    for near in order {
        lay_list(head, first, lines, field, *near);
    }
}

// Makes the book anew from what the bus tells: the lines of every bridge reachable from `start`, in the order found.
// Answers how many they are. A refusal changes nothing of the book. What working memory holds afterwards is free.
// `survey` is the whole call; `reachable` says which bridges an accepted walk finds, and in which order; `refusals` says that
// what a refusal on the way names is so.
pub fn survey<F: Field>(
    head: &mut Head,
    first: &mut [u16],
    lines: &mut [Line<F::Kind>],
    work: &mut [u16],
    field: &mut F,
    start: u16,
) -> Result<u16, Refusal>
    ensures survey { (told (λ count. count) result, memory head.new first.new lines.new) ≡ surveying (F.tells field.old) (memory head.old first.old lines.old) (length work.old) start }
    ensures reachable { 1 ≤ start → start ≤ head.old.bridges → WalksAll (F.tells field.old) head.old.bridges head.old.slots start }
    ensures refusals { 1 ≤ start → start ≤ head.old.bridges → StopsRight (F.tells field.old) head.old.bridges head.old.slots start }
    ensures same { F.tells field.new ≡ F.tells field.old }
{
    admit_book(head, first, lines, work)?;
    let bridges = head.bridges;
    if !(1..=bridges).contains(&start) {
        return Err(Refusal::BridgeOutOfRange);
    }
    let limits = Limits {
        bridges,
        lines: head.slots,
    };
    let tally = walk(field, limits, start, work)?;
    start_afresh(head, first, lines, bridges);
    lay_lists(head, first, lines, field, &work[..usize::from(tally.found)]);
    Ok(tally.lines)
}
