// What is reached over the lines that are better than a bar.
ghost use Rattle.std.specs.Prelude.{◌≡◌, ℕ, ◌+◌, ◌<◌, ◌≤◌, true, ◌||◌, length};
ghost use Rattle.theory.specs.Arcs.{Proper};
ghost use Rattle.theory.specs.Lists.{Each};
ghost use Rattle.theory.specs.Reach.{leads, marks};
ghost use Rattle.search.specs.Marks.{takens};
ghost use Rattle.margins.specs.Standing.{standing};
ghost use Rattle.margins.specs.Facing.{pick, faced, steps};

use book::Line;
use grade::Grade;
use search::{Tables, clear, is_marked};

// Which way lines are followed. An enum, not a closure: the proofs go by these two ways.
#[derive(Clone, Copy)]
pub enum Direction {
    Forward,
    Backward,
}

impl Direction {
    // The first of two bridges going forward, the second going backward.
    fn bridge(self, first: u16, second: u16) -> u16
        ensures { result ≡ pick self first second }
    {
        match self {
            Direction::Forward => first,
            Direction::Backward => second,
        }
    }
}

// Whether a line leads on from what is marked.
fn leads_on<G: Grade>(line: Line<G>, way: Direction, bar: G, marked: &[u16]) -> bool
    ensures { result ≡ steps G.le bar way (takens marked.now) line }
{
    line.stands() && !line.grade.at_most(bar) && is_marked(marked, way.bridge(line.near, line.far))
}

// Marks also the bridge to which each line leads on from what is marked.
fn spread<G: Grade>(
    lines: &[Line<G>],
    way: Direction,
    bar: G,
    marked: &[u16],
    spreading: &mut [u16],
)
    requires { Each (λ e. pick way e.far e.near < length spreading.old) (standing lines.now) }
    ensures { (b : ℕ) → takens spreading.new b ≡ (takens spreading.old b || leads G.le bar (takens marked.now) (faced way (standing lines.now)) b) }
{
    for line in lines {
        if leads_on(*line, way, bar, marked) {
            spreading[usize::from(way.bridge(line.far, line.near))] = 1;
        }
    }
}

// Whether two rounds marked the same.
fn is_same(before: &[u16], after: &[u16]) -> bool
    ensures { result ≡ true → before.now ≡ after.now }
{
    before == after
}

// Marks the bridges reached from one, in rounds over all lines until a round adds nothing.
pub fn mark_reached<G: Grade>(
    tables: &Tables<'_, G>,
    way: Direction,
    bar: G,
    from: u16,
    marked: &mut [u16],
    spare: &mut [u16],
)
    requires lines { Each (Proper tables.now.n) (standing tables.now.lines.now) }
    requires from { from ≤ tables.now.n }
    requires marked { length marked.old ≡ tables.now.n + 1 }
    requires spare { tables.now.n + 1 ≤ length spare.old }
    ensures { (b : ℕ) → takens marked.new b ≡ marks G.le (faced way (standing tables.now.lines.now)) bar from tables.now.n b }
{
    let (spreading, _) = spare.split_at_mut(usize::from(tables.n) + 1);
    clear(marked);
    marked[usize::from(from)] = 1;
    for _round in 0..tables.n {
        spreading.copy_from_slice(marked);
        spread(tables.lines, way, bar, marked, spreading);
        if is_same(marked, spreading) {
            return;
        }
        marked.copy_from_slice(spreading);
    }
}
