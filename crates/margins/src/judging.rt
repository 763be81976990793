// What is answered to a list of line numbers whose margins are asked.
ghost use Rattle.std.specs.Prelude.{◌≡◌, ◌+◌, ◌*◌, ◌≤◌, length, None};
ghost use Rattle.grade.specs.Told.{told};
ghost use Rattle.theory.specs.Arcs.{Lines};
ghost use Rattle.theory.specs.Verdicts.{margins_of};
ghost use Rattle.search.specs.Chains.{Holds};
ghost use Rattle.margins.specs.Standing.{standing};
ghost use Rattle.margins.specs.Asked.{Sound, margin_told};
ghost use Rattle.margins.specs.Telling.{verdict_told, margins_in};

use crate::asked::Asked;
use crate::given::{lowest_but, route_ends};
use crate::margin::{Margin, write_margins};
use crate::reach::{Direction, mark_reached};
use grade::{Grade, Refusal};
use search::{Tables, best_width};

// Marks what the start reaches and what reaches the end over lines better than the width, then writes the margins.
fn tell_margins<G: Grade>(asked: &Asked<'_, G>, work: &mut [u16], out: &mut [Margin<G>])
    requires sound { Sound asked.now }
    requires work { 5 * asked.now.tables.now.n + 5 ≤ length work.old }
    requires out { length asked.now.tables.now.lines.now ≤ length out.old }
    ensures { out.new ≡ margins_in (margin_told G.le asked.now) 1 asked.now.tables.now.lines.now out.old }
{
    let tables = asked.tables;
    let ends = asked.ends;
    let places = usize::from(tables.n) + 1;
    let (reached, rest) = work.split_at_mut(places);
    let (reaching, rest) = rest.split_at_mut(places);
    mark_reached(
        tables,
        Direction::Forward,
        asked.width,
        ends.start,
        reached,
        rest,
    );
    mark_reached(
        tables,
        Direction::Backward,
        asked.width,
        ends.end,
        reaching,
        rest,
    );
    write_margins(asked, reached, reaching, rest, out);
}

// Whether the line numbers give a widest route; then each standing line's margin is written at its place.
pub fn judge<G: Grade>(
    tables: &Tables<'_, G>,
    work: &mut [u16],
    numbers: &[u16],
    out: &mut [Margin<G>],
) -> Result<(), Refusal>
    requires whole { tables.now.skip ≡ None }
    requires holds { Holds tables.now.n tables.now.first.now tables.now.lines.now (standing tables.now.lines.now) }
    requires proper { Lines tables.now.n (standing tables.now.lines.now) }
    requires work { 8 * tables.now.n ≤ length work.old }
    requires out { length tables.now.lines.now ≤ length out.old }
    ensures { (told (λ _. tt) result, out.new) ≡ verdict_told (margins_of G.le tables.now.n (standing tables.now.lines.now) numbers.now) (standing tables.now.lines.now) out.old }
{
    let Some(ends) = route_ends(tables.lines, numbers) else {
        return Err(Refusal::NotARoute);
    };
    let Some(width) = lowest_but(tables.lines, numbers, None) else {
        return Err(Refusal::NotARoute);
    };
    let Some(best) = best_width(tables, work, ends) else {
        return Err(Refusal::NotARoute);
    };
    if !best.at_most(width) {
        return Err(Refusal::WiderRouteExists);
    }
    let asked = Asked {
        tables,
        numbers,
        ends,
        width,
    };
    tell_margins(&asked, work, out);
    Ok(())
}
