// The walk that finds the bridges from a start, and checks all that they tell, before any book is touched.
ghost use Rattle.std.specs.Prelude.{◌≡◌, ℕ, ◌+◌, ◌-◌, ◌*◌, ◌<◌, ◌≤◌, true, not, ◌&&◌, ◌||◌, length, take, IfOk, ◌==◌, nat_le, slice_index};
ghost use Rattle.survey.specs.Working.{FoundIn, Unstamped, stands_for};
ghost use Rattle.grade.specs.Told.{told};
ghost use Rattle.survey.specs.Walk.{join, read_bridge, walked, WalksAll};

use field::{Field, Silence};
use grade::Refusal;

// The most bridges and lines that a walk may find.
#[derive(Clone, Copy)]
pub struct Limits {
    pub bridges: u16,
    pub lines: u16,
}

// How many bridges are found, and how many lines were told.
#[derive(Clone, Copy, PartialEq, Eq, Debug)]
pub struct Tally {
    pub found: u16,
    pub lines: u16,
}

// Whether `far` cannot be told now: outside 1 to n, the near bridge itself, or told before in this list.
fn cannot_be(far: u16, near: u16, n: u16, turn: u16, stamps: &[u16]) -> bool
    requires { n ≤ length stamps.now }
    ensures { result ≡ (not (nat_le 1 far && nat_le far n) || (far == near || slice_index stamps.now (far - 1) == turn)) }
{
    if !(1..=n).contains(&far) {
        return true;
    }
    far == near || stamps[usize::from(far) - 1] == turn
}

// A far bridge not yet found joins the end of the order; answers how many are found then.
// Marks are numbers, not bools: the working memory that the caller lends is of u16.
fn note_found(far: u16, n: u16, count: u16, order: &mut [u16], marks: &mut [u16]) -> u16
    requires memory { FoundIn n order.old marks.old count }
    requires within { (1 ≤ far) × (far ≤ n) }
    ensures found { take result order.new ≡ join (take count order.old) far }
    ensures memory { FoundIn n order.new marks.new result }
{
    let place = usize::from(far) - 1;
    if marks[place] > 0 {
        return count;
    }
    marks[place] = 1;
    order[usize::from(count)] = far;
    count + 1
}

// Takes one bridge at its turn: refuses its silence, or reads its list.
// Three slices, not a struct of them: with `&mut` fields each contract would have to say of each that it is still the same loan.
fn take_bridge<F: Field>(
    field: &mut F,
    near: u16,
    limits: Limits,
    turn: u16,
    tally: Tally,
    order: &mut [u16],
    marks: &mut [u16],
    stamps: &mut [u16],
) -> Result<Tally, Refusal>
    requires memory { FoundIn limits.bridges order.old marks.old tally.found }
    requires unstamped { Unstamped limits.bridges turn stamps.old }
    requires counted { tally.lines ≤ limits.lines }
    ensures read { told (stands_for order.new) result ≡ read_bridge limits.bridges limits.lines near (stands_for order.old tally) (F.tells field.old near) }
    ensures memory { IfOk result (λ t. FoundIn limits.bridges order.new marks.new t.found × Unstamped limits.bridges (turn + 1) stamps.new × (t.lines ≤ limits.lines)) }
    ensures same { F.tells field.new ≡ F.tells field.old }
{
    let listing = field.ask_listing(near);
    let length = listing.map_err(|silence: Silence| Refusal::SilentBridge {
        bridge: near,
        cause: u16::from(silence.cause),
    })?;
    let mut now_told = tally;
    for position in 1..=u16::from(length) {
        let Some(far) = field.ask_far(near, position) else {
            unreachable!();
        };
        if cannot_be(far, near, limits.bridges, turn, stamps) {
            return Err(Refusal::WrongFar {
                bridge: near,
                position,
            });
        }
        if now_told.lines >= limits.lines {
            return Err(Refusal::SurveyOverflows {
                bridge: near,
                position,
            });
        }
        stamps[usize::from(far) - 1] = turn;
        now_told = Tally {
            found: note_found(far, limits.bridges, now_told.found, order, marks),
            lines: now_told.lines + 1,
        };
    }
    Ok(now_told)
}

// Empties the first n numbers. `search::clear` empties all of them: survey does not stand on the search, and asks for a part only.
fn clear(n: u16, numbers: &mut [u16])
    requires { n ≤ length numbers.old }
    ensures cleared { (k : ℕ) → k < n → slice_index numbers.new k ≡ 0 }
    ensures length { length numbers.new ≡ length numbers.old }
{
    numbers[..usize::from(n)].fill(0);
}

// Finds the bridges from `start` within limits, and checks all that they tell. The first numbers of `work` are then the
// order found.
pub fn walk<F: Field>(
    field: &mut F,
    limits: Limits,
    start: u16,
    work: &mut [u16],
) -> Result<Tally, Refusal>
    requires start { (1 ≤ start) × (start ≤ limits.bridges) }
    requires memory { 3 * limits.bridges ≤ length work.old }
    ensures walked { told (stands_for work.new) result ≡ walked (F.tells field.old) limits.bridges limits.lines start }
    ensures within { IfOk result (λ t. t.found ≤ limits.bridges) }
    ensures complete { WalksAll (F.tells field.old) limits.bridges limits.lines start }
    ensures same { F.tells field.new ≡ F.tells field.old }
{
    let n = limits.bridges;
    let (order, rest) = work.split_at_mut(usize::from(n));
    let (marks, stamps) = rest.split_at_mut(usize::from(n));
    clear(n, marks);
    clear(n, stamps);
    let found = note_found(start, n, 0, order, marks);
    let mut tally = Tally { found, lines: 0 };
    for taken in 0..n {
        if taken >= tally.found {
            break;
        }
        let near = order[usize::from(taken)];
        tally = take_bridge(field, near, limits, taken + 1, tally, order, marks, stamps)?;
    }
    Ok(tally)
}
