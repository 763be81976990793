// The route that a list of line numbers gives: its two ends and its width.
ghost use Rattle.std.specs.Prelude.{◌≡◌, []};
ghost use Rattle.std.specs.List.{list_any};
ghost use Rattle.theory.specs.Arcs.{numbered, all_numbered, width as width_along};
ghost use Rattle.theory.specs.Delivery.{with_line};
ghost use Rattle.search.specs.Chains.{omitting};
ghost use Rattle.search.specs.Widths.{as_held};
ghost use Rattle.margins.specs.Standing.{standing};
ghost use Rattle.margins.specs.Picking.{as_arc, as_place, picked, arrives_by, follow, ends_by, ends_told, lowest_with};

use book::Line;
use grade::Grade;
use search::{Ends, record_at};

// The record of a standing line.
fn standing_at<G: Grade>(lines: &[Line<G>], number: u16) -> Option<Line<G>>
    ensures { as_arc number result ≡ numbered (standing lines.now) number }
{
    let line = record_at(lines, number)?;
    line.stands().then_some(line)
}

// Whether the line of one number arrives at a bridge.
fn arrives<G: Grade>(lines: &[Line<G>], number: u16, bridge: u16) -> bool
    ensures { result ≡ arrives_by (standing lines.now) bridge number }
{
    let Some(line) = standing_at(lines, number) else {
        return false;
    };
    line.far == bridge
}

// Whether one of the lines arrives at a bridge.
fn arrives_at<G: Grade>(lines: &[Line<G>], numbers: &[u16], bridge: u16) -> bool
    ensures { result ≡ list_any (arrives_by (standing lines.now) bridge) numbers.now }
{
    numbers.iter().any(|number| arrives(lines, *number, bridge))
}

// Where the lines arrive, if they are a route from `start`.
fn end_of<G: Grade>(lines: &[Line<G>], numbers: &[u16], start: u16) -> Option<u16>
    ensures { as_place result ≡ follow (standing lines.now) numbers.now start }
{
    let mut bridge = start;
    for (at, number) in numbers.iter().enumerate() {
        let line = standing_at(lines, *number)?;
        if line.near != bridge {
            return None;
        }
        if arrives_at(lines, &numbers[at..], bridge) {
            return None;
        }
        bridge = line.far;
    }
    Some(bridge)
}

// The two ends of the route that line numbers give; none where they give no route.
pub fn route_ends<G: Grade>(lines: &[Line<G>], numbers: &[u16]) -> Option<Ends>
    ensures { ends_told result ≡ ends_by (all_numbered (standing lines.now) numbers.now) }
{
    let number = numbers.first()?;
    let line = standing_at(lines, *number)?;
    let end = end_of(lines, numbers, line.near)?;
    Some(Ends {
        start: line.near,
        end,
    })
}

// The lower of the grade so far and that of one line, unless it is the one left out; the grade so far where alike.
fn lowered<G: Grade>(
    lines: &[Line<G>],
    number: u16,
    skip: Option<u16>,
    so_far: Option<G>,
) -> Option<G>
    ensures { result ≡ lowest_with G.le so_far (omitting skip (with_line (numbered (standing lines.now) number) [])) }
{
    let Some(line) = standing_at(lines, number) else {
        return so_far;
    };
    if skip == Some(number) {
        return so_far;
    }
    let Some(grade) = so_far else {
        return Some(line.grade);
    };
    if grade.at_most(line.grade) {
        Some(grade)
    } else {
        Some(line.grade)
    }
}

// The lowest grade of the lines but for the one left out, the first along them where alike.
pub fn lowest_but<G: Grade>(lines: &[Line<G>], numbers: &[u16], skip: Option<u16>) -> Option<G>
    ensures { result ≡ as_held (width_along G.le (omitting skip (picked (standing lines.now) numbers.now))) }
{
    let mut lowest = None;
    for number in numbers {
        lowest = lowered(lines, *number, skip, lowest);
    }
    lowest
}
