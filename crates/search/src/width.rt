// The width of a widest route.
ghost use Rattle.std.specs.Prelude.{◌≡◌, ℕ, ◌+◌, ◌*◌, ◌≤◌, List, length};
ghost use Rattle.theory.specs.Arcs.{Arc, AllApart};
ghost use Rattle.theory.specs.Widest.{best_width};
ghost use Rattle.search.specs.Labels.{label_of};
ghost use Rattle.search.specs.Chains.{omitting, Holds};
ghost use Rattle.search.specs.Widths.{width_in, as_held};

use crate::ended::is_marked;
use crate::ends::Ends;
use crate::label::label_of;
use crate::tables::{Tables, search_widest};
use book::Line;
use grade::Grade;
use theory::labels::Label;

// The width that the end's label tells once the end is taken: none where the search did not come there.
pub fn width_told<G: Copy>(label: Option<Label<G>>, taken: bool) -> Option<G>
    ensures { result ≡ width_in taken label }
{
    if !taken {
        return None;
    }
    match label? {
        Label::Unlimited => None,
        Label::Limited(grade) => Some(grade),
    }
}

// The same by the label's number.
pub fn width_at<G: Grade>(lines: &[Line<G>], number: u16, taken: bool) -> Option<G>
    ensures { result ≡ width_in taken (label_of lines.now number) }
{
    width_told(label_of(lines, number), taken)
}

// The width of a widest route over the lines of the tables, if there is a route.
pub fn best_width<G: Grade>(tables: &Tables<'_, G>, work: &mut [u16], ends: Ends) -> Option<G>
    requires work { 3 * tables.now.n + 3 ≤ length work.old }
    requires start { ends.start ≤ tables.now.n }
    requires end { ends.end ≤ tables.now.n }
    ensures { (arcs : List (Arc G)) → Holds tables.now.n tables.now.first.now tables.now.lines.now arcs → AllApart arcs → result ≡ as_held (best_width G.le (omitting tables.now.skip arcs) tables.now.n ends.start ends.end) }
{
    // Parted here, not in a function of its own: a call can say of two parts at most what becomes of the memory that they are of.
    let places = usize::from(tables.n) + 1;
    let (labels, rest) = work.split_at_mut(places);
    let (ways, rest) = rest.split_at_mut(places);
    let (taken, _) = rest.split_at_mut(places);
    search_widest(tables, labels, ways, taken, ends);
    width_at(
        tables.lines,
        labels[usize::from(ends.end)],
        is_marked(taken, ends.end),
    )
}
