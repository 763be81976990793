// How long a route question takes on a large network, the margins of its lines, and the lines to turn: a ring of 256 bridges both
// ways with 512 random chords.
// The gate runs it without words and compares what it found; with the word `figures` it prints times as well.
#![tactic(auto)]

ghost use Rattle.std.specs.Prelude.{◌≡◌, ◌≤◌, min, take};
ghost use Rattle.grade.specs.Told.{told};
ghost use Rattle.grade.specs.Kinds.{slots_le, slots_of};
ghost use Rattle.book.specs.Memory.{memory};
ghost use Rattle.book.specs.Opening.{opening};
ghost use Rattle.lines.specs.Calls.{laying};
ghost use Rattle.route.specs.Routing.{routing};
ghost use Rattle.margins.specs.Published.{margins_asked};
ghost use Rattle.turn.specs.Outcomes.{parts, turning_round};
ghost use Rattle.turn.specs.Loads.{loading};

use book::{Head, Line};
use dice::Dice;
use grade::{Refusal, Slots};
use margins::Margin;
use route::Found;
use std::env;
use std::time::{Duration, Instant};
use turn::Turned;

const BRIDGES: u16 = 256;

const QUESTIONS: u32 = 2_000;

const MARGIN_QUESTIONS: u32 = 100;

const TURN_QUESTIONS: u32 = 200;

// The tables of a book of 256 bridges and 1,024 line slots, and the memory that its calls are lent. Arrays and no `Desk`, here and in the two
// programs of trials: none of them takes heap for its book.
#[derive(Drop)]
struct Network {
    head: Head,
    first: [u16; 256],
    lines: [Line<Slots>; 1024],
    work: [u16; 3072],
    numbers: [u16; 256],
    turned: [u16; 256],
    side: [u8; 256],
    margins: [Margin<Slots>; 1024],
}

impl Network {
    fn new() -> Network {
        let none = Margin {
            low: None,
            high: None,
        };
        Network {
            head: Head::default(),
            first: [0; 256],
            lines: [Line::free(Slots::holding(1), 0); 1024],
            work: [0; 3072],
            numbers: [0; 256],
            turned: [0; 256],
            side: [0; 256],
            margins: [none; 1024],
        }
    }

    fn open(&mut self) -> Result<(), Refusal>
        ensures told { (told (λ _. tt) result, memory self.new.head self.new.first self.new.lines) ≡ opening 256 (memory self.old.head self.old.first self.old.lines) }
        ensures others { (self.new.numbers ≡ self.old.numbers) × (self.new.turned ≡ self.old.turned) × (self.new.side ≡ self.old.side) × (self.new.margins ≡ self.old.margins) }
    {
        planner::open(&mut self.head, &mut self.first, &mut self.lines, BRIDGES)
    }

    fn lay(&mut self, near: u16, far: u16, grade: Slots) -> Result<u16, Refusal>
        ensures told { (told (λ n. n) result, memory self.new.head self.new.first self.new.lines) ≡ laying (memory self.old.head self.old.first self.old.lines) 3072 near far grade }
        ensures others { (self.new.numbers ≡ self.old.numbers) × (self.new.turned ≡ self.old.turned) × (self.new.side ≡ self.old.side) × (self.new.margins ≡ self.old.margins) }
    {
        lines::lay(
            &mut self.head,
            &mut self.first,
            &mut self.lines,
            &mut self.work,
            near,
            far,
            grade,
        )
    }

    fn route(&mut self, from: u16, to: u16) -> Result<Found<Slots>, Refusal>
        ensures told { (told (λ f. f) result, (self.new.numbers, self.new.side)) ≡ routing slots_le (memory self.old.head self.old.first self.old.lines) 3072 from to self.old.numbers self.old.side }
        ensures book { memory self.new.head self.new.first self.new.lines ≡ memory self.old.head self.old.first self.old.lines }
        ensures others { (self.new.turned ≡ self.old.turned) × (self.new.margins ≡ self.old.margins) }
    {
        route::route(
            &self.head,
            &self.first,
            &self.lines,
            &mut self.work,
            from,
            to,
            &mut self.numbers,
            &mut self.side,
        )
    }

    // The margins of all lines for the route that was told last.
    fn margins(&mut self, length: usize) -> Result<(), Refusal>
        ensures told { (told (λ _. tt) result, self.new.margins) ≡ margins_asked slots_le (memory self.old.head self.old.first self.old.lines) 3072 (take (min length 256) self.old.numbers) self.old.margins }
        ensures book { memory self.new.head self.new.first self.new.lines ≡ memory self.old.head self.old.first self.old.lines }
        ensures others { (self.new.numbers ≡ self.old.numbers) × (self.new.turned ≡ self.old.turned) × (self.new.side ≡ self.old.side) }
    {
        margins::margins(
            &self.head,
            &self.first,
            &self.lines,
            &mut self.work,
            &self.numbers[..length.min(256)],
            &mut self.margins,
        )
    }

    // The route with lines turned round.
    fn turn(&mut self, from: u16, to: u16) -> Result<Turned, Refusal>
        ensures told { (told parts result, (self.new.numbers, self.new.turned)) ≡ turning_round slots_of (memory self.old.head self.old.first self.old.lines) 3072 from to self.old.numbers self.old.turned }
        ensures book { memory self.new.head self.new.first self.new.lines ≡ memory self.old.head self.old.first self.old.lines }
        ensures others { (self.new.side ≡ self.old.side) × (self.new.margins ≡ self.old.margins) }
    {
        turn::turn(
            &self.head,
            &self.first,
            &self.lines,
            &mut self.work,
            from,
            to,
            &mut self.numbers,
            &mut self.turned,
        )
    }

    // The slots of all lines.
    fn load(&mut self) -> Result<u32, Refusal>
        ensures told { told (λ s. s) result ≡ loading slots_of (memory self.old.head self.old.first self.old.lines) 3072 }
        ensures book { memory self.new.head self.new.first self.new.lines ≡ memory self.old.head self.old.first self.old.lines }
        ensures others { (self.new.numbers ≡ self.old.numbers) × (self.new.turned ≡ self.old.turned) × (self.new.side ≡ self.old.side) × (self.new.margins ≡ self.old.margins) }
    {
        turn::load(&self.head, &self.first, &self.lines, &mut self.work)
    }
}

fn bridge(dice: &mut Dice) -> u16 {
    dice.up_to(BRIDGES)
}

fn slots(dice: &mut Dice) -> Result<Slots, Refusal> {
    Slots::new(u32::from(dice.up_to(1_000)))
}

// What the questions found: how many routes, and how many lines they have together.
#[derive(Clone, Copy)]
struct Tally {
    routes: u32,
    lines: u64,
}

// The ring, one line each way between neighbours.
fn lay_ring(network: &mut Network, dice: &mut Dice) -> Result<(), Refusal> {
    for b in 1..=BRIDGES {
        let next = b % BRIDGES + 1;
        let _ = network.lay(b, next, slots(dice)?)?;
        let _ = network.lay(next, b, slots(dice)?)?;
    }
    Ok(())
}

// Chords between random bridges, until no slot is free.
fn lay_chords(network: &mut Network, dice: &mut Dice) -> Result<(), Refusal> {
    for _ in 0..100_000 {
        let (near, far) = (bridge(dice), bridge(dice));
        if network.lay(near, far, slots(dice)?) == Err(Refusal::NoFreeSlot) {
            break;
        }
    }
    Ok(())
}

// The routes between random bridges. Counts are added by `as u64`, here and below: there is no `From` of a usize.
fn ask(network: &mut Network, dice: &mut Dice) -> Tally {
    let mut tally = Tally {
        routes: 0,
        lines: 0,
    };
    for _ in 0..QUESTIONS {
        let (from, to) = (bridge(dice), bridge(dice));
        if let Ok(found) = network.route(from, to) {
            tally.routes = tally.routes.saturating_add(1);
            tally.lines = tally.lines.saturating_add(found.length as u64);
        }
    }
    tally
}

// The ends that a margin tells.
fn ends(margin: &Margin<Slots>) -> u64 {
    u64::from(margin.low.is_some()) + u64::from(margin.high.is_some())
}

// How many ends the margins of the route that was told last have.
fn ask_margins(network: &mut Network, length: usize) -> u64 {
    let mut told_ends = 0u64;
    if network.margins(length).is_ok() {
        for margin in &network.margins {
            told_ends = told_ends.saturating_add(ends(margin));
        }
    }
    told_ends
}

// How long each of so many questions took.
fn tell_each(rt: &HostRuntime, span: Duration, questions: u32, what: &str) -> anyhow::Result<()>
    requires { 1 ≤ questions }
{
    let each = span.as_nanos() / u128::from(questions);
    println!(rt; "{each} ns for each {what}")?;
    Ok(())
}

fn run(rt: &HostRuntime) -> anyhow::Result<()> {
    let figures = env::args(rt)?.count() > 1;
    let mut dice = Dice::new(1);
    let mut network = Network::new();
    if network.open().is_err() {
        println!(rt; "no book")?;
        return Ok(());
    }
    let _ = lay_ring(&mut network, &mut dice);
    let _ = lay_chords(&mut network, &mut dice);
    let standing = network.lines.iter().filter(|line| line.stands()).count();
    let slots = network.load().unwrap_or(0);
    println!(rt; "{standing} lines of {slots} slots")?;
    let start = Instant::now(rt)?;
    let tally = ask(&mut network, &mut dice);
    let span = start.elapsed(rt)?;
    let (routes, lines) = (tally.routes, tally.lines);
    println!(rt; "{routes} routes of {lines} lines")?;
    if figures {
        tell_each(rt, span, QUESTIONS, "route")?;
    }
    time_margins(rt, &mut network, &mut dice, figures)
}

// Asks for the margins of routes between random bridges.
fn time_margins(
    rt: &HostRuntime,
    network: &mut Network,
    dice: &mut Dice,
    figures: bool,
) -> anyhow::Result<()> {
    let mut told_ends = 0u64;
    let mut lines = 0u64;
    let start = Instant::now(rt)?;
    for _ in 0..MARGIN_QUESTIONS {
        let (from, to) = (bridge(dice), bridge(dice));
        if let Ok(found) = network.route(from, to) {
            told_ends = told_ends.saturating_add(ask_margins(network, found.length));
            lines = lines.saturating_add(found.length as u64);
        }
    }
    let span = start.elapsed(rt)?;
    println!(rt; "{told_ends} ends of margins on routes of {lines} lines")?;
    if figures {
        tell_each(rt, span, MARGIN_QUESTIONS, "margins")?;
    }
    time_turns(rt, network, dice, figures)
}

// Asks for the lines to turn between random bridges.
fn time_turns(
    rt: &HostRuntime,
    network: &mut Network,
    dice: &mut Dice,
    figures: bool,
) -> anyhow::Result<()> {
    let mut bridges = 0u64;
    let mut lines = 0u64;
    let start = Instant::now(rt)?;
    for _ in 0..TURN_QUESTIONS {
        let (from, to) = (bridge(dice), bridge(dice));
        if let Ok(told) = network.turn(from, to) {
            bridges = bridges.saturating_add(told.bridges as u64);
            lines = lines.saturating_add(told.turned as u64);
        }
    }
    let span = start.elapsed(rt)?;
    println!(rt; "{lines} lines to turn on routes of {bridges} bridges")?;
    if figures {
        tell_each(rt, span, TURN_QUESTIONS, "turn")?;
    }
    Ok(())
}

fn main(rt: HostRuntime) -> anyhow::Result<()> {
    run(&rt)
}
