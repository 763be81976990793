// The lines of a slots book with both directions of each pair added together, as a net for the search. Sums of slots are
// plain numbers: they may exceed a line's range.
ghost use Rattle.std.specs.Prelude.{◌≡◌, ℕ, ◌+◌, ◌<◌, ◌≤◌, length, Some, nat_le, slice_index};
ghost use Rattle.std.specs.List.{slice_get};
ghost use Rattle.theory.specs.Order.{lower};
ghost use Rattle.theory.specs.Widest.{label_le, narrow};
ghost use Rattle.theory.specs.declared.labels.Label.TheVariants.{Limited};
ghost use Rattle.search.specs.Marks.{marks, offered_to, offered_all};
ghost use Rattle.turn.specs.Doubling.{Row, slots_at, pair_slots, pair_label_of, other_end, crossing, crossings, both_rule, Paired};

use crate::pairs::slots_at;
use book::Line;
use grade::Slots;
use search::{Net, Numbered, hand_down, label_at_most, offer_label};
use theory::labels::Label;

// The bridges 1 to n, their lines, and at each line's place the number of the line the other way round.
#[derive(Clone, Copy)]
pub struct Doubled<'a> {
    pub n: u16,
    pub lines: &'a [Line<Slots>],
    pub partners: &'a [u16],
}

// The slots of the line the other way round, by a line's place: 0 where none stands.
fn slots_back(net: &Doubled<'_>, at: usize) -> u32
    ensures sum { result ≡ slots_at net.now.lines.now (slice_index net.now.partners.now at) }
    ensures few { result ≤ 1048576 }
{
    net.partners
        .get(at)
        .map_or(0, |number| slots_at(net.lines, *number))
}

// The slots of the line at a place with those of the line the other way round.
fn slots_both(net: &Doubled<'_>, at: usize, line: Line<Slots>) -> u32
    ensures { result ≡ pair_slots net.now.lines.now net.now.partners.now at line }
{
    line.grade.count() + slots_back(net, at)
}

// The label that a number stands for.
fn pair_label(net: &Doubled<'_>, number: u16) -> Option<Label<u32>>
    ensures { result ≡ pair_label_of net.now.lines.now net.now.partners.now number }
{
    let place = usize::from(number).checked_sub(1)?;
    match net.lines.get(place) {
        Some(line) => Some(Label::Limited(slots_both(net, place, *line))),
        None => Some(Label::Unlimited),
    }
}

// The bridge at the other end of a line that touches a bridge.
fn other_end(line: Line<Slots>, bridge: u16) -> Option<u16>
    ensures { result ≡ other_end line bridge }
{
    if !line.stands() {
        return None;
    }
    if line.near == bridge {
        return Some(line.far);
    }
    if line.far == bridge {
        return Some(line.near);
    }
    None
}

// A bridge offers another one what so many slots hand on of its label. That a number stands for the label is asked here and below, since it is a
// fact of the label and the net. Eight parameters, since the labels and the ways are two loans.
fn offer_to(
    net: &Doubled<'_>,
    labels: &mut [u16],
    ways: &mut [u16],
    from: u16,
    held: Numbered<u32>,
    to: u16,
    number: u16,
    slots: u32,
)
    requires held { pair_label_of net.now.lines.now net.now.partners.now held.number ≡ Some held.label }
    requires slots { pair_label_of net.now.lines.now net.now.partners.now number ≡ Some (Limited slots) }
    requires label { to < length labels.old }
    requires way { to < length ways.old }
    ensures { marks (pair_label_of net.now.lines.now net.now.partners.now) labels.new ways.new ≡ offered_to (label_le nat_le) from (lower (label_le nat_le) held.label (Limited slots)) to (marks (pair_label_of net.now.lines.now net.now.partners.now) labels.old ways.old) }
{
    let own = pair_label(net, labels[usize::from(to)]);
    let offer = hand_down(held, number, slots);
    offer_label(labels, ways, from, to, own, offer);
}

// A bridge offers the one at the other end of a line what both directions together hand on.
fn offer_across(
    net: &Doubled<'_>,
    labels: &mut [u16],
    ways: &mut [u16],
    from: u16,
    held: Numbered<u32>,
    at: usize,
    line: Line<Slots>,
)
    requires held { pair_label_of net.now.lines.now net.now.partners.now held.number ≡ Some held.label }
    requires line { slice_get net.now.lines.now at ≡ Some line }
    requires few { at < 1024 }
    requires within { (v : ℕ) → other_end line from ≡ Some v → v < length labels.old }
    requires alike { length ways.old ≡ length labels.old }
    ensures { marks (pair_label_of net.now.lines.now net.now.partners.now) labels.new ways.new ≡ offered_all (label_le nat_le) (narrow nat_le) from held.label (crossing from (at + 1) (pair_slots net.now.lines.now net.now.partners.now at line) (other_end line from)) (marks (pair_label_of net.now.lines.now net.now.partners.now) labels.old ways.old) }
{
    let Some(to) = other_end(line, from) else {
        return;
    };
    let slots = slots_both(net, at, line);
    // `as` cuts nothing: the table has at most 1,024 lines.
    offer_to(net, labels, ways, from, held, to, at as u16 + 1, slots);
}

// A bridge makes its offers over all lines of the table, one after another.
fn offer_all(
    net: &Doubled<'_>,
    labels: &mut [u16],
    ways: &mut [u16],
    from: u16,
    held: Numbered<u32>,
)
    requires held { pair_label_of net.now.lines.now net.now.partners.now held.number ≡ Some held.label }
    requires few { length net.now.lines.now ≤ 1024 }
    requires within { (line : Row) (at v : ℕ) → slice_get net.now.lines.now at ≡ Some line → other_end line from ≡ Some v → v < length labels.old }
    requires alike { length ways.old ≡ length labels.old }
    ensures { marks (pair_label_of net.now.lines.now net.now.partners.now) labels.new ways.new ≡ offered_all (label_le nat_le) (narrow nat_le) from held.label (crossings net.now.lines.now net.now.partners.now from 0 net.now.lines.now) (marks (pair_label_of net.now.lines.now net.now.partners.now) labels.old ways.old) }
{
    for (at, line) in net.lines.iter().enumerate() {
        offer_across(net, labels, ways, from, held, at, *line);
    }
}

impl Net for Doubled<'_> {
    type Label = Label<u32>;

    ghost le = { label_le nat_le };

    ghost read = { λ t. pair_label_of t.lines.now t.partners.now };

    ghost rule = { λ t. both_rule t.n t.lines.now };

    ghost bridges = { λ t. t.n };

    ghost sound = { λ t. Paired t.n t.lines.now t.partners.now };

    fn label_of(&self, number: u16) -> Option<Label<u32>> {
        pair_label(self, number)
    }

    fn at_most(&self, a: Label<u32>, b: Label<u32>) -> bool {
        label_at_most(a, b)
    }

    fn offer_from(&self, labels: &mut [u16], ways: &mut [u16], bridge: u16, label: Label<u32>) {
        let held = Numbered {
            number: labels[usize::from(bridge)],
            label,
        };
        offer_all(self, labels, ways, bridge, held);
    }
}
