// Runs cases of discovery one after another, and prints each under a heading.
#![tactic(auto)]

use discovery::{Detail, Request, report_ring, report_stored};
use grade::{Class, Slots};

// Two bridges, each with one line of five slots to the other.
const RING_OF_TWO: [u8; 24] = [
    2, 0, 2, 0, 1, 0, 2, 0, 2, 0, 0, 0, 5, 0, 0, 0, 1, 0, 0, 0, 5, 0, 0, 0,
];

// A book of `bridges` bridges and `slots` lines, surveyed from bridge 1.
fn book(bridges: u16, slots: u16, end: u16) -> Request {
    Request {
        bridges,
        slots,
        start: 1,
        end,
        detail: Detail::Full,
    }
}

fn show_ring(
    rt: &HostRuntime,
    heading: &str,
    size: u16,
    slots: u32,
    asked: Request,
) -> anyhow::Result<()> {
    println!(rt; "== {heading}")?;
    if let Ok(grade) = Slots::new(slots) {
        let text = report_ring(rt.alloc(), size, grade, asked)?;
        print!(rt; "{text}")?;
    }
    Ok(())
}

fn show_stored(
    rt: &HostRuntime,
    heading: &str,
    bytes: &[u8],
    asked: Request,
) -> anyhow::Result<()> {
    println!(rt; "== {heading}")?;
    let text = report_stored(rt.alloc(), bytes, asked)?;
    print!(rt; "{text}")?;
    Ok(())
}

fn show_rings(rt: &HostRuntime) -> anyhow::Result<()> {
    show_ring(rt, "a ring of 4", 4, 5, book(4, 8, 3))?;
    show_ring(rt, "a ring of 2", 2, 5, book(2, 2, 2))?;
    let largest = Request {
        detail: Detail::Brief,
        ..book(256, 1024, 129)
    };
    show_ring(rt, "a ring of 256", 256, 1_048_576, largest)?;
    show_ring(rt, "a ring of 257", 257, 5, book(256, 1024, 2))?;
    show_ring(rt, "a ring of 1", 1, 5, book(4, 8, 2))?;
    show_ring(rt, "a book with too few line slots", 4, 5, book(4, 7, 3))?;
    show_ring(rt, "a book with too few bridges", 4, 5, book(3, 8, 3))?;
    show_ring(rt, "a book with no line slot", 4, 5, book(4, 0, 3))?;
    let silent = Request {
        start: 5,
        ..book(5, 8, 1)
    };
    show_ring(rt, "a silent bridge", 4, 5, silent)?;
    let outside = Request {
        start: 0,
        ..book(4, 8, 1)
    };
    show_ring(rt, "a start that is no bridge", 4, 5, outside)?;
    show_ring(
        rt,
        "no route to a bridge that was not found",
        4,
        5,
        book(5, 8, 5),
    )
}

fn show_stored_surveys(rt: &HostRuntime) -> anyhow::Result<()> {
    show_stored(rt, "a stored ring of two", &RING_OF_TWO, book(2, 3, 2))?;
    let mut met_twice = RING_OF_TWO;
    met_twice[10] = 1;
    show_stored(
        rt,
        "a chain that meets a record twice",
        &met_twice,
        book(2, 3, 2),
    )?;
    let mut unmet = RING_OF_TWO;
    unmet[6] = 0;
    show_stored(rt, "a record on no chain", &unmet, book(2, 3, 2))?;
    let mut no_slots = RING_OF_TWO;
    no_slots[20] = 0;
    show_stored(rt, "a line of no slots", &no_slots, book(2, 3, 2))?;
    show_stored(rt, "a truncated survey", &RING_OF_TWO[0..23], book(2, 3, 2))?;
    let mut far_silent = RING_OF_TWO;
    far_silent[8] = 3;
    show_stored(rt, "a line to a silent bridge", &far_silent, book(3, 3, 2))
}

fn show_classes(rt: &HostRuntime) -> anyhow::Result<()> {
    println!(rt; "== a ring of 3 with fibre")?;
    if let Ok(fibre) = Class::new(3, 1) {
        let text = report_ring(rt.alloc(), 3, fibre, book(3, 6, 3))?;
        print!(rt; "{text}")?;
    }
    Ok(())
}

fn run(rt: &HostRuntime) -> anyhow::Result<()> {
    show_rings(rt)?;
    show_stored_surveys(rt)?;
    show_classes(rt)
}

fn main(rt: HostRuntime) -> anyhow::Result<()> {
    run(&rt)
}
