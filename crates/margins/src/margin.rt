// The margin of each line.
ghost use Rattle.std.specs.Prelude.{◌≡◌, ◌+◌, ◌*◌, ◌≤◌, true, ◌&&◌, List, length};
ghost use Rattle.theory.specs.Arcs.{Arc, Lines, Proper, width as width_along};
ghost use Rattle.theory.specs.Widest.{best_width};
ghost use Rattle.theory.specs.Reach.{reaches};
ghost use Rattle.theory.specs.Margins.{without, limit_reached};
ghost use Rattle.standing.specs.Standing.{arc};
ghost use Rattle.search.specs.Chains.{omitting, Holds};
ghost use Rattle.search.specs.Marks.{takens};
ghost use Rattle.search.specs.Widths.{as_held};
ghost use Rattle.margins.specs.Standing.{standing};
ghost use Rattle.margins.specs.Picking.{picked};
ghost use Rattle.margins.specs.Telling.{as_told, margins_in, exceeds};
ghost use Rattle.margins.specs.Asked.{Sound, Reached, Reaching, margin_if, margin_told, margin_off};

use crate::asked::Asked;
use crate::given::lowest_but;
use book::Line;
use grade::Grade;
use search::{Ends, Tables, best_width, is_marked};

// The ends between which a line's grade may move; none limits nothing.
#[derive(Clone, Copy)]
pub struct Margin<G> {
    pub low: Option<G>,
    pub high: Option<G>,
}

// Whether a width that may be there is better than a bar.
fn exceeds_bar<G: Grade>(width: Option<G>, bar: G) -> bool
    ensures { result ≡ exceeds G.le width bar }
{
    width.is_some_and(|wide| !wide.at_most(bar))
}

// Whether one bridge reaches another over lines better than a bar. How long lent memory is stands in the contracts here and below: no value
// holds the memory and the tables both.
fn is_reached<G: Grade>(
    tables: &Tables<'_, G>,
    work: &mut [u16],
    bar: G,
    from: u16,
    to: u16,
) -> bool
    requires work { 3 * tables.now.n + 3 ≤ length work.old }
    requires from { (1 ≤ from) × (from ≤ tables.now.n) }
    requires to { (1 ≤ to) × (to ≤ tables.now.n) }
    ensures { (arcs : List (Arc G)) → Holds tables.now.n tables.now.first.now tables.now.lines.now arcs → Lines tables.now.n arcs → result ≡ reaches G.le tables.now.n (omitting tables.now.skip arcs) bar from to }
{
    if from == to {
        return true;
    }
    let ends = Ends {
        start: from,
        end: to,
    };
    exceeds_bar(best_width(tables, work, ends), bar)
}

// The limit, where the start reaches the line's near bridge, and its far bridge the end, over lines better than the limit.
fn high_end<G: Grade>(
    tables: &Tables<'_, G>,
    work: &mut [u16],
    ends: Ends,
    line: Line<G>,
    limit: Option<G>,
) -> Option<G>
    requires work { 3 * tables.now.n + 3 ≤ length work.old }
    requires start { (1 ≤ ends.start) × (ends.start ≤ tables.now.n) }
    requires end { (1 ≤ ends.end) × (ends.end ≤ tables.now.n) }
    requires line { Proper tables.now.n (arc 0 line) }
    ensures { (arcs : List (Arc G)) → Holds tables.now.n tables.now.first.now tables.now.lines.now arcs → Lines tables.now.n arcs → result ≡ as_held (limit_reached G.le tables.now.n (omitting tables.now.skip arcs) ends.start ends.end (arc 0 line) (as_told limit)) }
{
    let bar = limit?;
    if !is_reached(tables, work, bar, ends.start, line.near) {
        return None;
    }
    if !is_reached(tables, work, bar, line.far, ends.end) {
        return None;
    }
    Some(bar)
}

// The width of a widest route between the route's ends without one line.
fn width_without<G: Grade>(asked: &Asked<'_, G>, omitted: u16, work: &mut [u16]) -> Option<G>
    requires sound { Sound asked.now }
    requires work { 3 * asked.now.tables.now.n + 3 ≤ length work.old }
    ensures { result ≡ as_held (best_width G.le (without (standing asked.now.tables.now.lines.now) omitted) asked.now.tables.now.n asked.now.ends.start asked.now.ends.end) }
{
    best_width(&asked.tables.omit(omitted), work, asked.ends)
}

// The lowest grade of the route's other lines, the first along it where alike.
fn limit_without<G: Grade>(asked: &Asked<'_, G>, number: u16) -> Option<G>
    ensures { result ≡ as_held (width_along G.le (without (picked (standing asked.now.tables.now.lines.now) asked.now.numbers.now) number)) }
{
    lowest_but(asked.tables.lines, asked.numbers, Some(number))
}

// The margin of a line on the route: all is searched without it.
fn margin_on<G: Grade>(
    asked: &Asked<'_, G>,
    number: u16,
    line: Line<G>,
    work: &mut [u16],
) -> Margin<G>
    requires sound { Sound asked.now }
    requires line { Proper asked.now.tables.now.n (arc number line) }
    requires work { 3 * asked.now.tables.now.n + 3 ≤ length work.old }
    ensures { result ≡ margin_if G.le asked.now (arc number line) true }
{
    let low = width_without(asked, number, work);
    let limit = limit_without(asked, number);
    let others = asked.tables.omit(number);
    let high = high_end(&others, work, asked.ends, line, limit);
    Margin { low, high }
}

// The margin of a line off the route of this width, by what the start reaches and what reaches the end over better lines.
fn margin_off<G: Grade>(width: G, line: Line<G>, reached: &[u16], reaching: &[u16]) -> Margin<G>
    ensures { result ≡ margin_off width (takens reached.now line.near && takens reaching.now line.far) }
{
    let limited = is_marked(reached, line.near) && is_marked(reaching, line.far);
    Margin {
        low: None,
        high: limited.then_some(width),
    }
}

// The margin of a standing line.
fn margin_of<G: Grade>(
    asked: &Asked<'_, G>,
    reached: &[u16],
    reaching: &[u16],
    number: u16,
    line: Line<G>,
    work: &mut [u16],
) -> Margin<G>
    requires sound { Sound asked.now }
    requires reached { Reached G.le asked.now (takens reached.now) }
    requires reaching { Reaching G.le asked.now (takens reaching.now) }
    requires line { Proper asked.now.tables.now.n (arc number line) }
    requires work { 3 * asked.now.tables.now.n + 3 ≤ length work.old }
    ensures { result ≡ margin_told G.le asked.now (arc number line) }
{
    if asked.numbers.contains(&number) {
        margin_on(asked, number, line, work)
    } else {
        margin_off(asked.width, line, reached, reaching)
    }
}

// Writes each standing line's margin at its place; other records stay.
pub fn write_margins<G: Grade>(
    asked: &Asked<'_, G>,
    reached: &[u16],
    reaching: &[u16],
    work: &mut [u16],
    out: &mut [Margin<G>],
)
    requires sound { Sound asked.now }
    requires reached { Reached G.le asked.now (takens reached.now) }
    requires reaching { Reaching G.le asked.now (takens reaching.now) }
    requires work { 3 * asked.now.tables.now.n + 3 ≤ length work.old }
    requires out { length asked.now.tables.now.lines.now ≤ length out.old }
    ensures { out.new ≡ margins_in (margin_told G.le asked.now) 1 asked.now.tables.now.lines.now out.old }
{
    for (place, line) in asked.tables.lines.iter().enumerate() {
        if line.stands() {
            // `as` cuts nothing: the table has fewer than 65,535 lines.
            let number = place as u16 + 1;
            out[place] = margin_of(asked, reached, reaching, number, *line, work);
        }
    }
}
