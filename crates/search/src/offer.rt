// What a taken bridge offers along the lines of a table.
ghost use Rattle.std.specs.Prelude.{◌≡◌, ℕ, ◌<◌, ◌≤◌, [], ◌∷◌, length, Some, Option as Held, slice_index};
ghost use Rattle.theory.specs.Lists.{Each};
ghost use Rattle.theory.specs.Order.{lower};
ghost use Rattle.theory.specs.Widest.{label_le, narrow};
ghost use Rattle.theory.specs.declared.labels.Label.{Label as Reached};
ghost use Rattle.theory.specs.declared.labels.Label.TheVariants.{Limited};
ghost use Rattle.standing.specs.Standing.{arc, line_at};
ghost use Rattle.search.specs.Labels.{label_of};
ghost use Rattle.search.specs.Chains.{chain, omitting};
ghost use Rattle.search.specs.Marks.{marks, offered_to, offered, offered_all, beats};

use crate::label::{label_at_most, label_of, record_at};
use crate::tables::Tables;
use book::Line;
use grade::Grade;
use theory::labels::Label;

// A label with the number that stands for it.
#[derive(Clone, Copy)]
pub struct Numbered<G> {
    pub number: u16,
    pub label: Label<G>,
}

// What a line of this number and grade hands on of a label: the lower of the two, the label where they rank alike.
pub fn hand_down<G: Grade>(held: Numbered<G>, number: u16, grade: G) -> Numbered<G>
    ensures label { result.label ≡ lower (label_le G.le) held.label (Limited grade) }
    ensures number { (read : ℕ → Held (Reached G)) → read held.number ≡ Some held.label → read number ≡ Some (Limited grade) → read result.number ≡ Some result.label }
{
    let own = Label::Limited(grade);
    if label_at_most(held.label, own) {
        held
    } else {
        Numbered { number, label: own }
    }
}

// Whether a label is better than one that may be absent.
fn improves<G: Grade>(label: Label<G>, own: Option<Label<G>>) -> bool
    ensures { result ≡ beats (label_le G.le) label own }
{
    own.is_none_or(|held| !label_at_most(label, held))
}

// A bridge offers another one a label: it is written, with the way in, where it is better than the other's own.
pub fn offer_label<G: Grade>(
    labels: &mut [u16],
    ways: &mut [u16],
    from: u16,
    to: u16,
    own: Option<Label<G>>,
    offer: Numbered<G>,
)
    requires label { to < length labels.old }
    requires way { to < length ways.old }
    ensures { (read : ℕ → Held (Reached G)) → read (slice_index labels.old to) ≡ own → read offer.number ≡ Some offer.label → marks read labels.new ways.new ≡ offered_to (label_le G.le) from offer.label to (marks read labels.old ways.old) }
{
    if improves(offer.label, own) {
        let at = usize::from(to);
        labels[at] = offer.number;
        ways[at] = from;
    }
}

// A bridge offers the far bridge of one line what the line hands on.
fn offer_line<G: Grade>(
    lines: &[Line<G>],
    labels: &mut [u16],
    ways: &mut [u16],
    from: u16,
    held: Numbered<G>,
    slot: u16,
    line: Line<G>,
)
    requires held { label_of lines.now held.number ≡ Some held.label }
    requires line { line_at lines.now slot ≡ Some line }
    requires label { line.far < length labels.old }
    requires way { line.far < length ways.old }
    ensures { marks (label_of lines.now) labels.new ways.new ≡ offered (label_le G.le) (narrow G.le) from held.label (arc slot line) (marks (label_of lines.now) labels.old ways.old) }
{
    let own = label_of(lines, labels[usize::from(line.far)]);
    let offer = hand_down(held, slot, line.grade);
    offer_label(labels, ways, from, line.far, own, offer);
}

// The same, unless the line is the one left out. Eight parameters, since the labels and the ways are two loans.
fn offer_unless<G: Grade>(
    tables: &Tables<'_, G>,
    labels: &mut [u16],
    ways: &mut [u16],
    from: u16,
    held: Numbered<G>,
    slot: u16,
    line: Line<G>,
)
    requires held { label_of tables.now.lines.now held.number ≡ Some held.label }
    requires line { line_at tables.now.lines.now slot ≡ Some line }
    requires label { line.far < length labels.old }
    requires way { line.far < length ways.old }
    ensures { marks (label_of tables.now.lines.now) labels.new ways.new ≡ offered_all (label_le G.le) (narrow G.le) from held.label (omitting tables.now.skip (arc slot line ∷ [])) (marks (label_of tables.now.lines.now) labels.old ways.old) }
{
    if tables.skip == Some(slot) {
        return;
    }
    offer_line(tables.lines, labels, ways, from, held, slot, line);
}

// The same along a chain. That labels and ways are as long as one another is asked here and of a net: they are two loans.
pub fn offer_chain<G: Grade>(
    tables: &Tables<'_, G>,
    labels: &mut [u16],
    ways: &mut [u16],
    from: u16,
    held: Numbered<G>,
    first: u16,
)
    requires held { label_of tables.now.lines.now held.number ≡ Some held.label }
    requires within { Each (λ e. e.far < length labels.old) (chain tables.now.lines.now (length tables.now.lines.now) first) }
    requires alike { length ways.old ≡ length labels.old }
    ensures { marks (label_of tables.now.lines.now) labels.new ways.new ≡ offered_all (label_le G.le) (narrow G.le) from held.label (omitting tables.now.skip (chain tables.now.lines.now (length tables.now.lines.now) first)) (marks (label_of tables.now.lines.now) labels.old ways.old) }
{
    let mut slot = first;
    for _step in 0..tables.lines.len() {
        let Some(line) = record_at(tables.lines, slot) else {
            return;
        };
        offer_unless(tables, labels, ways, from, held, slot, line);
        slot = line.next;
    }
}
