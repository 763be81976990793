// A book with memory of its own, for programs.
#![tactic(auto)]

ghost use Rattle.std.specs.Prelude.{◌≡◌, IfOk, take};
ghost use Rattle.grade.specs.Told.{told};
ghost use Rattle.grade.specs.Kinds.{slots_of};
ghost use Rattle.book.specs.Opening.{opening};
ghost use Rattle.lines.specs.Calls.{laying, regrading};
ghost use Rattle.route.specs.Routing.{routing};
ghost use Rattle.margins.specs.Published.{margins_asked};
ghost use Rattle.turn.specs.Outcomes.{parts, turning_round};
ghost use Rattle.turn.specs.Loads.{loading};

use book::{Head, Line};
use field::Field;
use grade::{Grade, Refusal, Slots};
use margins::Margin;
use route::Found;
use std::alloc::{AllocError, Global};
use turn::Turned;

// The memory that the calls on a book are lent.
#[derive(Drop)]
pub struct Desk<G> {
    bridges: u16,
    head: Head,
    first: Vec<u16>,
    lines: Vec<Line<G>>,
    work: Vec<u16>,
    numbers: Vec<u16>,
    side: Vec<u8>,
    margins: Vec<Margin<G>>,
    turned: Vec<u16>,
}

impl<G: Grade> Desk<G> {
    ghost use Rattle.desk.specs.Desks.{tables, room, fixed, told_last, beside_route, beside_margins, surveyed, IsFor};

    // Memory for `bridges` bridges and `slots` lines. Every line slot holds `blank` until a line is laid in it.
    pub fn new(heap: Global, bridges: u16, slots: u16, blank: G) -> Result<Desk<G>, AllocError>
        ensures { IfOk result (IsFor bridges slots) }
    {
        let none = Margin {
            low: None,
            high: None,
        };
        let n = usize::from(bridges);
        let m = usize::from(slots);
        Ok(Desk {
            bridges,
            head: Head::default(),
            first: vec![in heap; 0; n]?,
            lines: vec![in heap; Line::free(blank, 0); m]?,
            work: vec![in heap; 0; 8 * n + m]?,
            numbers: vec![in heap; 0; n]?,
            side: vec![in heap; 0; n]?,
            margins: vec![in heap; none; m]?,
            turned: vec![in heap; 0; n]?,
        })
    }

    // Opens the book, with as many bridges as there is memory for.
    pub fn open(&mut self) -> Result<(), Refusal>
        ensures told { (told (λ _. tt) result, tables self.new) ≡ opening self.old.bridges (tables self.old) }
        ensures fixed { fixed self.new ≡ fixed self.old }
        ensures answers { told_last self.new ≡ told_last self.old }
    {
        planner::open(
            &mut self.head,
            &mut self.first,
            &mut self.lines,
            self.bridges,
        )
    }

    // Opens the book and surveys a field from a start bridge. Answers how many lines there are.
    pub fn survey<F: Field<Kind = G>>(&mut self, field: &mut F, start: u16) -> Result<u16, Refusal>
        ensures told { (told (λ count. count) result, tables self.new) ≡ surveyed (F.tells field.old) (opening self.old.bridges (tables self.old)) (room self.old) start }
        ensures same { F.tells field.new ≡ F.tells field.old }
        ensures fixed { fixed self.new ≡ fixed self.old }
        ensures answers { told_last self.new ≡ told_last self.old }
    {
        self.open()?;
        survey::survey(
            &mut self.head,
            &mut self.first,
            &mut self.lines,
            &mut self.work,
            field,
            start,
        )
    }

    pub fn lay(&mut self, near: u16, far: u16, grade: G) -> Result<u16, Refusal>
        ensures told { (told (λ n. n) result, tables self.new) ≡ laying (tables self.old) (room self.old) near far grade }
        ensures fixed { fixed self.new ≡ fixed self.old }
        ensures answers { told_last self.new ≡ told_last self.old }
    {
        lines::lay(
            &mut self.head,
            &mut self.first,
            &mut self.lines,
            &mut self.work,
            near,
            far,
            grade,
        )
    }

    pub fn regrade(&mut self, near: u16, far: u16, grade: G) -> Result<u16, Refusal>
        ensures told { (told (λ n. n) result, tables self.new) ≡ regrading (tables self.old) (room self.old) near far grade }
        ensures fixed { fixed self.new ≡ fixed self.old }
        ensures answers { told_last self.new ≡ told_last self.old }
    {
        lines::regrade(
            &self.head,
            &self.first,
            &mut self.lines,
            &mut self.work,
            near,
            far,
            grade,
        )
    }

    // Asks for the widest route between two bridges. Here and below, that the book stays the same is a fact of two moments, and so a clause.
    pub fn route(&mut self, from: u16, to: u16) -> Result<Found<G>, Refusal>
        ensures told { (told (λ f. f) result, (self.new.numbers.items, self.new.side.items)) ≡ routing G.le (tables self.old) (room self.old) from to self.old.numbers.items self.old.side.items }
        ensures book { tables self.new ≡ tables self.old }
        ensures fixed { fixed self.new ≡ fixed self.old }
        ensures others { beside_route self.new ≡ beside_route self.old }
    {
        route::route(
            &self.head,
            &self.first,
            &self.lines,
            &mut self.work,
            from,
            to,
            &mut self.numbers,
            &mut self.side,
        )
    }

    // Asks for the margins of the lines of the last route, which are the first `length` numbers. To be asked before any turn, whose bridges
    // take the numbers' place.
    pub fn margins(&mut self, length: usize) -> Result<(), Refusal>
        ensures told { (told (λ _. tt) result, self.new.margins.items) ≡ margins_asked G.le (tables self.old) (room self.old) (take length self.old.numbers.items) self.old.margins.items }
        ensures book { tables self.new ≡ tables self.old }
        ensures fixed { fixed self.new ≡ fixed self.old }
        ensures others { beside_margins self.new ≡ beside_margins self.old }
    {
        let length = length.min(self.numbers.len());
        margins::margins(
            &self.head,
            &self.first,
            &self.lines,
            &mut self.work,
            &self.numbers[..length],
            &mut self.margins,
        )
    }

    // The line slots, by rising number.
    pub fn lines(&self) -> &[Line<G>]
        ensures { result.now ≡ self.now.lines.items }
    {
        self.lines.as_slice()
    }

    // The line numbers of the last route, or the bridges of the last turn, behind them what stood there before.
    pub fn numbers(&self) -> &[u16]
        ensures { result.now ≡ self.now.numbers.items }
    {
        self.numbers.as_slice()
    }

    // The side of the last route: for each bridge whether it is marked.
    pub fn side(&self) -> &[u8]
        ensures { result.now ≡ self.now.side.items }
    {
        self.side.as_slice()
    }

    // The margins that were told last, by rising line number.
    pub fn told_margins(&self) -> &[Margin<G>]
        ensures { result.now ≡ self.now.margins.items }
    {
        self.margins.as_slice()
    }

    // The lines that the last turn named, behind them what stood there before.
    pub fn turned(&self) -> &[u16]
        ensures { result.now ≡ self.now.turned.items }
    {
        self.turned.as_slice()
    }
}

impl Desk<Slots> {
    ghost use Rattle.desk.specs.Desks.{tables, room, fixed, told_last, beside_turn};

    // Asks for the lines to turn for a wider route.
    pub fn turn(&mut self, from: u16, to: u16) -> Result<Turned, Refusal>
        ensures told { (told parts result, (self.new.numbers.items, self.new.turned.items)) ≡ turning_round slots_of (tables self.old) (room self.old) from to self.old.numbers.items self.old.turned.items }
        ensures book { tables self.new ≡ tables self.old }
        ensures fixed { fixed self.new ≡ fixed self.old }
        ensures others { beside_turn self.new ≡ beside_turn self.old }
    {
        turn::turn(
            &self.head,
            &self.first,
            &self.lines,
            &mut self.work,
            from,
            to,
            &mut self.numbers,
            &mut self.turned,
        )
    }

    // The slots of all lines.
    pub fn load(&mut self) -> Result<u32, Refusal>
        ensures told { told (λ s. s) result ≡ loading slots_of (tables self.old) (room self.old) }
        ensures book { tables self.new ≡ tables self.old }
        ensures fixed { fixed self.new ≡ fixed self.old }
        ensures answers { told_last self.new ≡ told_last self.old }
    {
        turn::load(&self.head, &self.first, &self.lines, &mut self.work)
    }
}

#[cfg(test)]
mod tests {
    use super::*;
    use std::test::Fail;

    #[test]
    fn a_desk_has_memory_for_its_book(rt: HostRuntime) -> Result<(), Fail> {
        let mut desk = Desk::new(rt.alloc(), 3, 2, Slots::holding(1))?;
        assert_eq!(rt; desk.open(), Ok(()));
        assert_eq!(rt; desk.lay(1, 2, Slots::holding(5)), Ok(1));
        assert_eq!(rt; desk.lay(2, 3, Slots::holding(4)), Ok(2));
        assert_eq!(rt; desk.lay(3, 1, Slots::holding(3)), Err(Refusal::NoFreeSlot));
        assert_eq!(rt; desk.route(1, 3).map(|found| found.length), Ok(2));
        assert_eq!(rt; desk.load(), Ok(9));
        Ok(())
    }
}
