// What a question for the lines to turn answers.
ghost use Rattle.std.specs.Prelude.{◌≡◌, ◌+◌, ◌*◌, ◌<◌, ◌≤◌, true, [], length};
ghost use Rattle.grade.specs.Kinds.{slots_of};
ghost use Rattle.grade.specs.Told.{told};
ghost use Rattle.theory.specs.Arcs.{Pair, Lines};
ghost use Rattle.theory.specs.Search.{way_in};
ghost use Rattle.book.specs.Memory.{memory};
ghost use Rattle.standing.specs.Standing.{standing_from};
ghost use Rattle.search.specs.Chains.{table_line, Holds};
ghost use Rattle.search.specs.Marks.{takens, state_of};
ghost use Rattle.turn.specs.Doubling.{pair_label_of};
ghost use Rattle.turn.specs.Outcomes.{parts, outcome, shown, turn_by, turned_round, turning_round};

use crate::doubled::Doubled;
use crate::pairs::pair_up;
use crate::told::Turned;
use crate::way::{write_bridges, write_turned};
use book::{Head, Line, admit};
use grade::{Refusal, Slots};
use search::{Ended, Ends, Net, START_LABEL, Tables, is_marked, run_search, way_back, width_told};

// Reads the answer off the memory of a search that ended: the route's bridges, and the lines to turn along it. Three of the parameters are
// loans that it writes, and so no struct's.
fn answer(
    tables: &Tables<'_, Slots>,
    partners: &[u16],
    ended: &Ended<'_>,
    spare: &mut [u16],
    ends: Ends,
    bridges: &mut [u16],
    turned: &mut [u16],
) -> Result<Turned, Refusal>
    requires labels { length ended.now.labels.now ≡ tables.now.n + 1 }
    requires ways { length ended.now.ways.now ≡ tables.now.n + 1 }
    requires taken { length ended.now.taken.now ≡ tables.now.n + 1 }
    requires spare { length spare.old ≡ tables.now.n }
    requires end { ends.end ≤ tables.now.n }
    requires bridges { tables.now.n ≤ length bridges.old }
    requires turned { tables.now.n ≤ length turned.old }
    requires short { takens ended.now.taken.now ends.end ≡ true → length (way_in tables.now.n (state_of (pair_label_of tables.now.lines.now partners.now) ended.now.labels.now ended.now.ways.now ended.now.taken.now) ends.start ends.end []) < tables.now.n }
    ensures { outcome (told parts result) bridges.new turned.new ≡ shown (turn_by tables.now.lines.now (table_line tables.now.n tables.now.first.now tables.now.lines.now) tables.now.n ends.start ends.end (state_of (pair_label_of tables.now.lines.now partners.now) ended.now.labels.now ended.now.ways.now ended.now.taken.now)) bridges.old turned.old }
{
    let net = Doubled {
        n: tables.n,
        lines: tables.lines,
        partners,
    };
    let label = net.label_of(ended.labels[usize::from(ends.end)]);
    let is_taken = is_marked(ended.taken, ends.end);
    let Some(width) = width_told(label, is_taken) else {
        return Err(Refusal::NoRoute);
    };
    let at = way_back(&net, ended, ends, spare);
    let stops = write_bridges(ends.start, &spare[at..], bridges);
    let count = write_turned(tables, width, ends.start, &spare[at..], turned);
    Ok(Turned {
        width,
        bridges: stops,
        turned: count,
    })
}

// The widest route with lines turned round, in working memory.
fn turn_lines(
    tables: &Tables<'_, Slots>,
    work: &mut [u16],
    ends: Ends,
    bridges: &mut [u16],
    turned: &mut [u16],
) -> Result<Turned, Refusal>
    requires few { length tables.now.lines.now ≤ 1024 }
    requires lines { Lines tables.now.n (standing_from 1 tables.now.lines.now) }
    requires holds { Holds tables.now.n tables.now.first.now tables.now.lines.now (standing_from 1 tables.now.lines.now) }
    requires ends { Pair tables.now.n ends.start ends.end }
    requires work { 8 * tables.now.n + length tables.now.lines.now ≤ length work.old }
    requires bridges { tables.now.n ≤ length bridges.old }
    requires turned { tables.now.n ≤ length turned.old }
    ensures { outcome (told parts result) bridges.new turned.new ≡ turned_round slots_of (standing_from 1 tables.now.lines.now) tables.now.n ends.start ends.end bridges.old turned.old }
{
    // Parted here, not in a function of its own: a call can say of two parts at most what becomes of the memory that they are of.
    let places = usize::from(tables.n) + 1;
    let (labels, rest) = work.split_at_mut(places);
    let (ways, rest) = rest.split_at_mut(places);
    let (taken, rest) = rest.split_at_mut(places);
    let (spare, rest) = rest.split_at_mut(usize::from(tables.n));
    let (partners, _) = rest.split_at_mut(tables.lines.len());
    pair_up(tables, partners);
    let net = Doubled {
        n: tables.n,
        lines: tables.lines,
        partners,
    };
    run_search(&net, labels, ways, taken, tables.n, ends, START_LABEL);
    let ended = Ended {
        labels,
        ways,
        taken,
    };
    answer(tables, net.partners, &ended, spare, ends, bridges, turned)
}

// The widest route from `start` to `end` that any set of turned lines gives: its width, its bridges and the lines to turn. The tables and
// the memory are parameters of their own, as in all published calls.
pub fn turn(
    head: &Head,
    first: &[u16],
    lines: &[Line<Slots>],
    work: &mut [u16],
    start: u16,
    end: u16,
    bridges: &mut [u16],
    turned: &mut [u16],
) -> Result<Turned, Refusal>
    ensures { (told parts result, (bridges.new, turned.new)) ≡ turning_round slots_of (memory head.now first.now lines.now) (length work.old) start end bridges.old turned.old }
{
    let n = usize::from(head.bridges);
    if bridges.len() < n || turned.len() < n {
        return Err(Refusal::MemoryTooShort);
    }
    admit(head, first, lines, work, start, end)?;
    let tables = Tables {
        n: head.bridges,
        first,
        lines,
        skip: None,
    };
    turn_lines(&tables, work, Ends { start, end }, bridges, turned)
}
