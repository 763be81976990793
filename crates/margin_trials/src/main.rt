// Tries margins on many small random networks. Each line is regraded to each end of its margin and to one slot past it, where an end
// is told, and else as far as slots go, and route is asked again: the route has to be as wide as the widest within its margins, and
// narrower past them. Prints how many were tried and how many went wrong.
#![tactic(auto)]

ghost use Rattle.std.specs.Prelude.{◌≡◌, min, take};
ghost use Rattle.grade.specs.Told.{told};
ghost use Rattle.grade.specs.Kinds.{slots_le};
ghost use Rattle.book.specs.Memory.{memory};
ghost use Rattle.book.specs.Opening.{opening};
ghost use Rattle.lines.specs.Calls.{laying, regrading};
ghost use Rattle.route.specs.Routing.{routing};
ghost use Rattle.margins.specs.Published.{margins_asked};

use book::{Head, Line};
use dice::Dice;
use grade::{Refusal, Slots};
use margins::Margin;
use route::Found;

const BRIDGES: u16 = 7;

const NETWORKS: u32 = 2_000;

const MOST_SLOTS: u32 = 1_048_576;

// The tables of a book of seven bridges and 20 line slots, and the memory that its calls are lent: arrays, so that no heap is taken.
#[derive(Drop)]
struct Network {
    head: Head,
    first: [u16; 7],
    lines: [Line<Slots>; 20],
    work: [u16; 76],
    numbers: [u16; 7],
    side: [u8; 7],
    margins: [Margin<Slots>; 20],
}

impl Network {
    fn new() -> Network {
        let none = Margin {
            low: None,
            high: None,
        };
        Network {
            head: Head::default(),
            first: [0; 7],
            lines: [Line::free(Slots::holding(1), 0); 20],
            work: [0; 76],
            numbers: [0; 7],
            side: [0; 7],
            margins: [none; 20],
        }
    }

    fn open(&mut self) -> Result<(), Refusal>
        ensures told { (told (λ _. tt) result, memory self.new.head self.new.first self.new.lines) ≡ opening 7 (memory self.old.head self.old.first self.old.lines) }
        ensures others { (self.new.numbers ≡ self.old.numbers) × (self.new.side ≡ self.old.side) × (self.new.margins ≡ self.old.margins) }
    {
        planner::open(&mut self.head, &mut self.first, &mut self.lines, BRIDGES)
    }

    fn lay(&mut self, near: u16, far: u16, grade: Slots) -> Result<u16, Refusal>
        ensures told { (told (λ n. n) result, memory self.new.head self.new.first self.new.lines) ≡ laying (memory self.old.head self.old.first self.old.lines) 76 near far grade }
        ensures others { (self.new.numbers ≡ self.old.numbers) × (self.new.side ≡ self.old.side) × (self.new.margins ≡ self.old.margins) }
    {
        lines::lay(
            &mut self.head,
            &mut self.first,
            &mut self.lines,
            &mut self.work,
            near,
            far,
            grade,
        )
    }

    fn regrade(&mut self, near: u16, far: u16, grade: Slots) -> Result<u16, Refusal>
        ensures told { (told (λ n. n) result, memory self.new.head self.new.first self.new.lines) ≡ regrading (memory self.old.head self.old.first self.old.lines) 76 near far grade }
        ensures others { (self.new.numbers ≡ self.old.numbers) × (self.new.side ≡ self.old.side) × (self.new.margins ≡ self.old.margins) }
    {
        lines::regrade(
            &self.head,
            &self.first,
            &mut self.lines,
            &mut self.work,
            near,
            far,
            grade,
        )
    }

    fn route(&mut self, from: u16, to: u16) -> Result<Found<Slots>, Refusal>
        ensures told { (told (λ f. f) result, (self.new.numbers, self.new.side)) ≡ routing slots_le (memory self.old.head self.old.first self.old.lines) 76 from to self.old.numbers self.old.side }
        ensures book { memory self.new.head self.new.first self.new.lines ≡ memory self.old.head self.old.first self.old.lines }
        ensures others { self.new.margins ≡ self.old.margins }
    {
        route::route(
            &self.head,
            &self.first,
            &self.lines,
            &mut self.work,
            from,
            to,
            &mut self.numbers,
            &mut self.side,
        )
    }

    // The margins of all lines for the route that was told last.
    fn margins(&mut self, length: usize) -> Result<(), Refusal>
        ensures told { (told (λ _. tt) result, self.new.margins) ≡ margins_asked slots_le (memory self.old.head self.old.first self.old.lines) 76 (take (min length 7) self.old.numbers) self.old.margins }
        ensures book { memory self.new.head self.new.first self.new.lines ≡ memory self.old.head self.old.first self.old.lines }
        ensures others { (self.new.numbers ≡ self.old.numbers) × (self.new.side ≡ self.old.side) }
    {
        margins::margins(
            &self.head,
            &self.first,
            &self.lines,
            &mut self.work,
            &self.numbers[..length.min(7)],
            &mut self.margins,
        )
    }
}

// How many regrades left the route widest as they should, how many beat it as they should, and how many went wrong.
#[derive(Clone, Copy)]
struct Tally {
    routes: u32,
    within: u32,
    past: u32,
    wrong: u32,
}

impl Tally {
    // One regrade more: whether the route should stay widest, and whether it did.
    fn count(&mut self, should: bool, did: Result<bool, Refusal>) {
        let Ok(did) = did else {
            self.wrong = self.wrong.saturating_add(1);
            return;
        };
        if should != did {
            self.wrong = self.wrong.saturating_add(1);
        } else if should {
            self.within = self.within.saturating_add(1);
        } else {
            self.past = self.past.saturating_add(1);
        }
    }
}

// Random lines of few slots, so that many grades rank alike.
fn lay_lines(network: &mut Network, dice: &mut Dice) -> Result<(), Refusal> {
    for _ in 0..dice.up_to(60) {
        let grade = Slots::new(u32::from(dice.up_to(9)))?;
        let (near, far) = (dice.up_to(BRIDGES), dice.up_to(BRIDGES));
        let _ = network.lay(near, far, grade);
    }
    Ok(())
}

// The slots of the line of a number, 0 where there is none: then no route is as wide.
fn slots(network: &Network, number: u16) -> u32 {
    match network.lines.get(usize::from(number).saturating_sub(1)) {
        Some(line) => line.grade.count(),
        None => 0,
    }
}

// A route that was told: its two ends and its line numbers.
#[derive(Clone, Copy)]
struct Told {
    start: u16,
    end: u16,
    numbers: [u16; 7],
    length: usize,
}

// A route between two bridges, of which the margins are asked.
fn find_route(network: &mut Network, start: u16, end: u16) -> Option<Told> {
    let found = network.route(start, end).ok()?;
    network.margins(found.length).ok()?;
    Some(Told {
        start,
        end,
        numbers: network.numbers,
        length: found.length,
    })
}

// The lowest slots of the route's lines.
fn own_width(network: &Network, told: &Told) -> u32 {
    let mut lowest = MOST_SLOTS;
    for number in told.numbers.iter().take(told.length) {
        lowest = lowest.min(slots(network, *number));
    }
    lowest
}

// Whether the route is still widest with one line at other slots; the line is put back.
fn stays(
    network: &mut Network,
    told: &Told,
    line: Line<Slots>,
    slots: u32,
) -> Result<bool, Refusal> {
    let _ = network.regrade(line.near, line.far, Slots::new(slots)?)?;
    let own = own_width(network, told);
    let best = network.route(told.start, told.end);
    let _ = network.regrade(line.near, line.far, line.grade)?;
    Ok(own == best?.width.count())
}

// One end of a margin: the route stays widest there, and no more one slot on towards the last slots that a line may have.
// With no end told it stays so at those.
fn try_end(
    network: &mut Network,
    told: &Told,
    line: Line<Slots>,
    end: Option<Slots>,
    last: u32,
    tally: &mut Tally,
) {
    let slots = match end {
        Some(grade) => grade.count(),
        None => last,
    };
    tally.count(true, stays(network, told, line, slots));
    if slots != last {
        let past = if slots < last { slots + 1 } else { slots - 1 };
        tally.count(false, stays(network, told, line, past));
    }
}

// Every standing line of the network, at both ends.
fn try_lines(network: &mut Network, told: &Told, tally: &mut Tally) {
    tally.routes = tally.routes.saturating_add(1);
    let (lines, margins) = (network.lines, network.margins);
    for (line, margin) in lines.iter().zip(&margins) {
        if line.stands() {
            try_end(network, told, *line, margin.low, 1, tally);
            try_end(network, told, *line, margin.high, MOST_SLOTS, tally);
        }
    }
}

fn run(rt: &HostRuntime) -> anyhow::Result<()> {
    let mut dice = Dice::new(7);
    let mut tally = Tally {
        routes: 0,
        within: 0,
        past: 0,
        wrong: 0,
    };
    for _ in 0..NETWORKS {
        let mut network = Network::new();
        if network.open().is_err() {
            println!(rt; "no book")?;
            return Ok(());
        }
        let _ = lay_lines(&mut network, &mut dice);
        let (start, end) = (dice.up_to(BRIDGES), dice.up_to(BRIDGES));
        if let Some(told) = find_route(&mut network, start, end) {
            try_lines(&mut network, &told, &mut tally);
        }
    }
    let (routes, within, past, wrong) = (tally.routes, tally.within, tally.past, tally.wrong);
    println!(rt; "{routes} routes")?;
    println!(rt; "{within} regrades within a margin leave the route widest")?;
    println!(rt; "{past} regrades past an end beat it")?;
    println!(rt; "{wrong} went wrong")?;
    Ok(())
}

fn main(rt: HostRuntime) -> anyhow::Result<()> {
    run(&rt)
}
