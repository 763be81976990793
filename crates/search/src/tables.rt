// The tables of a book as a net: the search over them is the search for a widest route.
ghost use Rattle.std.specs.Prelude.{◌≡◌, ℕ, ◌+◌, ◌<◌, ◌≤◌, length, Some, ⊤};
ghost use Rattle.theory.specs.Widest.{label_le};
ghost use Rattle.search.specs.Labels.{label_of};
ghost use Rattle.search.specs.Chains.{line_but, numbered, rule_of, searched, table_line, Lawful};
ghost use Rattle.search.specs.Once.{Lawful-once};
ghost use Rattle.search.specs.Marks.{state_of};

use crate::chain::{head_of, number_between};
use crate::ends::Ends;
use crate::label::{label_at_most, label_of};
use crate::net::Net;
use crate::offer::{Numbered, offer_chain};
use crate::turns::run_search;
use book::Line;
use grade::Grade;
use std::alloc::AllocError;
use theory::labels::Label;

// The number of the start's label: no line has it.
pub const START_LABEL: u16 = 65535;

// The bridges 1 to n of a lawful book and their lines, but for the line of number `skip`.
pub struct Tables<'a, G> {
    pub n: u16,
    pub first: &'a [u16],
    pub lines: &'a [Line<G>],
    pub skip: Option<u16>,
    pub ghost lawful: { Lawful n first.now lines.now } by { Lawful-once n first.now lines.now },
    pub ghost few: { length lines.now < 65535 },
}

// By hand, since a derive does not reach over ghost fields.
impl<G> Copy for Tables<'_, G> {}

impl<G> Clone for Tables<'_, G> {
    ghost is_clone = { λ x y. y ≡ x };

    ghost is_infallible = { λ _. ⊤ };

    fn clone(&self) -> Result<Self, AllocError> {
        Ok(*self)
    }
}

impl<'a, G> Tables<'a, G> {
    // The same tables but for the line of a number.
    pub fn omit(&self, number: u16) -> Tables<'a, G>
        ensures { result ≡ record self.now { skip = Some number } }
    {
        Tables {
            n: self.n,
            first: self.first,
            lines: self.lines,
            skip: Some(number),
        }
    }
}

impl<G: Grade> Tables<'_, G> {
    // The number of the line from one bridge to another.
    pub fn number_between(&self, near: u16, far: u16) -> Option<u16>
        ensures { result ≡ numbered (table_line self.now.n self.now.first.now self.now.lines.now near far) }
    {
        number_between(self.first, self.lines, self.n, near, far)
    }
}

impl<G: Grade> Net for Tables<'_, G> {
    type Label = Label<G>;

    ghost le = { label_le G.Grade.le };

    ghost read = { λ t. label_of t.lines.now };

    ghost rule = { λ t. rule_of G.Grade.le (line_but t.n t.first.now t.lines.now t.skip) };

    ghost bridges = { λ t. t.n };

    ghost sound = { λ t. Lawful t.n t.first.now t.lines.now };

    fn label_of(&self, number: u16) -> Option<Label<G>> {
        label_of(self.lines, number)
    }

    fn at_most(&self, a: Label<G>, b: Label<G>) -> bool {
        label_at_most(a, b)
    }

    fn offer_from(&self, labels: &mut [u16], ways: &mut [u16], bridge: u16, label: Label<G>) {
        let held = Numbered {
            number: labels[usize::from(bridge)],
            label,
        };
        let head = head_of(self.first, self.n, bridge);
        offer_chain(self, labels, ways, bridge, held, head);
    }
}

// The search for a widest route, whatever working memory held before.
pub fn search_widest<G: Grade>(
    tables: &Tables<'_, G>,
    labels: &mut [u16],
    ways: &mut [u16],
    taken: &mut [u16],
    ends: Ends,
)
    requires labels { length labels.old ≡ tables.now.n + 1 }
    requires ways { length ways.old ≡ tables.now.n + 1 }
    requires taken { length taken.old ≡ tables.now.n + 1 }
    requires start { ends.start ≤ tables.now.n }
    requires end { ends.end ≤ tables.now.n }
    ensures { state_of (label_of tables.now.lines.now) labels.new ways.new taken.new ≡ searched G.Grade.le (line_but tables.now.n tables.now.first.now tables.now.lines.now tables.now.skip) tables.now.n ends.start ends.end }
{
    run_search(tables, labels, ways, taken, tables.n, ends, START_LABEL);
}
