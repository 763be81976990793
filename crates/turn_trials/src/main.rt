// Tries turn on many small random networks: for every pair of bridges every set of lines is turned, and the widest route looked for
// in another way. Prints how many questions were told a route, how many none, how many of the told routes need a turned line, and
// how many answers were wrong.
#![tactic(auto)]

ghost use Rattle.std.specs.Prelude.{◌≡◌, ◌<◌};
ghost use Rattle.grade.specs.Told.{told};
ghost use Rattle.grade.specs.Kinds.{slots_of};
ghost use Rattle.book.specs.Memory.{memory};
ghost use Rattle.book.specs.Opening.{opening};
ghost use Rattle.lines.specs.Calls.{laying};
ghost use Rattle.turn.specs.Outcomes.{parts, turning_round};

use book::{Head, Line};
use dice::Dice;
use grade::{Refusal, Slots};
use turn::Turned;

const BRIDGES: u16 = 5;

const NETWORKS: u32 = 150;

// All sets of eight lines, as bits.
const SETS: u16 = 256;

// The tables of a book of five bridges and eight line slots, and the memory that its calls are lent: arrays, so that no heap is taken.
#[derive(Drop)]
struct Network {
    head: Head,
    first: [u16; 5],
    lines: [Line<Slots>; 8],
    work: [u16; 48],
    bridges: [u16; 5],
    turned: [u16; 5],
}

impl Network {
    fn new() -> Network {
        Network {
            head: Head::default(),
            first: [0; 5],
            lines: [Line::free(Slots::holding(1), 0); 8],
            work: [0; 48],
            bridges: [0; 5],
            turned: [0; 5],
        }
    }

    fn open(&mut self) -> Result<(), Refusal>
        ensures told { (told (λ _. tt) result, memory self.new.head self.new.first self.new.lines) ≡ opening 5 (memory self.old.head self.old.first self.old.lines) }
        ensures others { (self.new.bridges ≡ self.old.bridges) × (self.new.turned ≡ self.old.turned) }
    {
        planner::open(&mut self.head, &mut self.first, &mut self.lines, BRIDGES)
    }

    fn lay(&mut self, near: u16, far: u16, grade: Slots) -> Result<u16, Refusal>
        ensures told { (told (λ n. n) result, memory self.new.head self.new.first self.new.lines) ≡ laying (memory self.old.head self.old.first self.old.lines) 48 near far grade }
        ensures others { (self.new.bridges ≡ self.old.bridges) × (self.new.turned ≡ self.old.turned) }
    {
        lines::lay(
            &mut self.head,
            &mut self.first,
            &mut self.lines,
            &mut self.work,
            near,
            far,
            grade,
        )
    }

    fn turn(&mut self, from: u16, to: u16) -> Result<Turned, Refusal>
        ensures told { (told parts result, (self.new.bridges, self.new.turned)) ≡ turning_round slots_of (memory self.old.head self.old.first self.old.lines) 48 from to self.old.bridges self.old.turned }
        ensures book { memory self.new.head self.new.first self.new.lines ≡ memory self.old.head self.old.first self.old.lines }
    {
        turn::turn(
            &self.head,
            &self.first,
            &self.lines,
            &mut self.work,
            from,
            to,
            &mut self.bridges,
            &mut self.turned,
        )
    }
}

// The place of a pair of bridges in a square of 6 by 6.
fn place(i: u16, j: u16) -> usize
    ensures { result < 36 }
{
    usize::from(i.min(5)) * 6 + usize::from(j.min(5))
}

// How many slots lead from each bridge to each other.
#[derive(Clone, Copy)]
struct Slotted {
    slots: [u32; 36],
}

impl Slotted {
    // The best width from one bridge to another, by way of ever more bridges in between: 0 where there is no route, as the greatest of
    // none.
    fn widest(mut self, start: u16, end: u16) -> u32 {
        for k in 1..=BRIDGES {
            for i in 1..=BRIDGES {
                for j in 1..=BRIDGES {
                    let through = self.slots[place(i, k)].min(self.slots[place(k, j)]);
                    self.slots[place(i, j)] = self.slots[place(i, j)].max(through);
                }
            }
        }
        self.slots[place(start, end)]
    }

    // The width of the route over these bridges: 0 where a line is missing.
    fn width_along(&self, bridges: &[u16]) -> u32 {
        let mut width = u32::MAX;
        for pair in bridges.windows(2) {
            if let [i, j] = pair {
                width = width.min(self.slots[place(*i, *j)]);
            }
        }
        width
    }
}

// How many routes were told, how many of them with lines to turn, how often none was told, and how many answers were wrong.
#[derive(Clone, Copy)]
struct Tally {
    routes: u32,
    with_turned: u32,
    none: u32,
    wrong: u32,
}

// The bit of a line's number.
fn bit(number: u16) -> u16 {
    let mut mask = 1u16;
    for _double in 1..number.min(9) {
        mask = mask.wrapping_mul(2);
    }
    mask
}

// Random lines of few slots.
fn lay_lines(network: &mut Network, dice: &mut Dice) -> Result<(), Refusal> {
    for _ in 0..dice.up_to(16) {
        let grade = Slots::new(u32::from(dice.up_to(6)))?;
        let (near, far) = (dice.up_to(BRIDGES), dice.up_to(BRIDGES));
        let _ = network.lay(near, far, grade);
    }
    Ok(())
}

// The slots with the lines of a set turned round.
fn turned_round(network: &Network, set: u16) -> Slotted {
    let mut net = Slotted { slots: [0; 36] };
    let mut mask = 1u16;
    for line in &network.lines {
        if line.stands() {
            let at = if set & mask == 0 {
                place(line.near, line.far)
            } else {
                place(line.far, line.near)
            };
            net.slots[at] = net.slots[at].saturating_add(line.grade.count());
        }
        mask = mask.wrapping_mul(2);
    }
    net
}

// The best width that any set gives.
fn best(network: &Network, start: u16, end: u16) -> u32 {
    let mut best = 0;
    for set in 0..SETS {
        best = best.max(turned_round(network, set).widest(start, end));
    }
    best
}

// The first `count` named lines as a set.
fn named(network: &Network, count: usize) -> u16 {
    let mut set = 0;
    for number in network.turned.iter().take(count) {
        set |= bit(*number);
    }
    set
}

// Whether the told route joins at the told width with the named lines turned, and with no set that lacks one of them.
fn is_least(network: &Network, told: Turned) -> bool {
    let Some(route) = network.bridges.get(0..told.bridges) else {
        return false;
    };
    let named = named(network, told.turned);
    if turned_round(network, named).width_along(route) != told.width {
        return false;
    }
    for set in 0..SETS {
        let joins = turned_round(network, set).width_along(route) == told.width;
        if joins && named & set != named {
            return false;
        }
    }
    true
}

// One question, compared.
fn try_pair(network: &mut Network, start: u16, end: u16, tally: &mut Tally) {
    let best = best(network, start, end);
    match network.turn(start, end) {
        Ok(told) => {
            tally.routes = tally.routes.saturating_add(1);
            if told.turned > 0 {
                tally.with_turned = tally.with_turned.saturating_add(1);
            }
            if told.width != best || !is_least(network, told) {
                tally.wrong = tally.wrong.saturating_add(1);
            }
        }
        Err(_) => {
            tally.none = tally.none.saturating_add(1);
            if best != 0 {
                tally.wrong = tally.wrong.saturating_add(1);
            }
        }
    }
}

fn try_pairs(network: &mut Network, tally: &mut Tally) {
    for start in 1..=BRIDGES {
        for end in 1..=BRIDGES {
            if start != end {
                try_pair(network, start, end, tally);
            }
        }
    }
}

fn run(rt: &HostRuntime) -> anyhow::Result<()> {
    let mut dice = Dice::new(1);
    let mut tally = Tally {
        routes: 0,
        with_turned: 0,
        none: 0,
        wrong: 0,
    };
    for _ in 0..NETWORKS {
        let mut network = Network::new();
        if network.open().is_err() {
            println!(rt; "no book")?;
            return Ok(());
        }
        let _ = lay_lines(&mut network, &mut dice);
        try_pairs(&mut network, &mut tally);
    }
    let (routes, with_turned) = (tally.routes, tally.with_turned);
    println!(rt; "{routes} routes, {with_turned} with lines to turn")?;
    let (none, wrong) = (tally.none, tally.wrong);
    println!(rt; "{none} times none")?;
    println!(rt; "{wrong} wrong")?;
    Ok(())
}

fn main(rt: HostRuntime) -> anyhow::Result<()> {
    run(&rt)
}
