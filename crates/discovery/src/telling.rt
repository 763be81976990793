// What a survey found, as text.
ghost use Rattle.std.specs.Prelude.{◌≡◌, [], ◌∷◌, IfOk};
ghost use Rattle.theory.specs.Lists.{among};
ghost use Rattle.survey.specs.Walk.{join_all};

use book::Line;
use desk::Desk;
use field::{Field, RingPlan};
use grade::{Grade, Slots};
use std::alloc::{AllocError, Global};
use std::fmt::{Display, Write};
use stored::StoredSurvey;

// Whether a bridge is among those found.
fn is_found(found: &[u16], bridge: u16) -> bool
    ensures { result ≡ among found.now bridge }
{
    found.contains(&bridge)
}

// The bridges found from a start: the start, and each other bridge where the far bridges of the lines first name it.
fn found_bridges(heap: Global, start: u16, fars: &[u16]) -> Result<Vec<u16>, AllocError>
    ensures { IfOk result (λ v. v.items ≡ join_all (start ∷ []) fars.now) }
{
    let mut found = vec![in heap; start]?;
    for far in fars {
        if !is_found(&found, *far) {
            found.push(*far)?;
        }
    }
    Ok(found)
}

// The far bridges of the first lines of a book. How many there are stands beside the slots, here and below: the slots behind them are free.
fn far_bridges<G: Grade>(
    heap: Global,
    lines: &[Line<G>],
    count: u16,
) -> Result<Vec<u16>, AllocError> {
    lines
        .iter()
        .take(usize::from(count))
        .map(|line| line.far)
        .collect(heap)
}

// Adds a word and then the first numbers of a row to a text.
fn add_numbers(text: &mut String, word: &str, numbers: &[u16], count: usize) -> anyhow::Result<()> {
    text.push_str(word)?;
    for number in numbers.iter().take(count) {
        write!(text, " {number}")?;
    }
    Ok(())
}

// Adds a row for each of the first lines of a book.
fn add_lines<G: Grade + Display>(
    text: &mut String,
    lines: &[Line<G>],
    count: usize,
) -> anyhow::Result<()> {
    for (i, line) in lines.iter().take(count).enumerate() {
        let number = i + 1;
        let near = line.near;
        let far = line.far;
        let grade = line.grade;
        writeln!(text, "line {number} from {near} to {far}, {grade}")?;
    }
    Ok(())
}

// Adds the marked bridges of a side, in the words of this text; the bench's reply has a contract on its own bytes.
fn add_side(text: &mut String, side: &[u8]) -> anyhow::Result<()> {
    text.push_str(", side")?;
    for (i, mark) in side.iter().enumerate() {
        if *mark == 1 {
            let bridge = i + 1;
            write!(text, " {bridge}")?;
        }
    }
    Ok(())
}

// Adds a row for the widest route between two bridges.
fn add_route<G: Grade + Display>(
    text: &mut String,
    desk: &mut Desk<G>,
    from: u16,
    to: u16,
) -> anyhow::Result<()> {
    write!(text, "route from {from} to {to}: ")?;
    match desk.route(from, to) {
        Ok(found) => {
            let width = found.width;
            write!(text, "width {width}, ")?;
            add_numbers(text, "lines", desk.numbers(), found.length)?;
            add_side(text, desk.side())?;
            writeln!(text)?;
        }
        Err(refusal) => writeln!(text, "{refusal}")?,
    }
    Ok(())
}

// Adds the found bridges and how many lines they have.
fn add_found<G: Grade>(
    heap: Global,
    text: &mut String,
    lines: &[Line<G>],
    start: u16,
    count: u16,
) -> anyhow::Result<()> {
    let fars = far_bridges(heap, lines, count)?;
    let found = found_bridges(heap, start, &fars)?;
    add_numbers(text, "found", &found, found.len())?;
    writeln!(text)?;
    writeln!(text, "{count} lines")?;
    Ok(())
}

// How much of a survey is told.
#[derive(Clone, Copy, PartialEq, Eq)]
pub enum Detail {
    // the found bridges, how many lines there are, and a route
    Brief,
    // and every line
    Full,
}

// What is asked: the size of the book, where the survey starts, where the route ends, and how much is told.
#[derive(Clone, Copy)]
pub struct Request {
    pub bridges: u16,
    pub slots: u16,
    pub start: u16,
    pub end: u16,
    pub detail: Detail,
}

// Surveys a field into a new book, and tells what was found and the widest route from the start to the end.
// Line slots hold `blank` until a line is laid in them.
pub fn report<F: Field>(
    heap: Global,
    field: &mut F,
    request: Request,
    blank: F::Kind,
) -> anyhow::Result<String>
where
    F::Kind: Display,
{
    let start = request.start;
    let mut desk = Desk::new(heap, request.bridges, request.slots, blank)?;
    let count = match desk.survey(field, start) {
        Ok(count) => count,
        Err(refusal) => return Ok(format!(in heap; "survey from {start}: {refusal}\n")?),
    };
    let mut text = String::new(heap);
    add_found(heap, &mut text, desk.lines(), start, count)?;
    if request.detail == Detail::Full {
        add_lines(&mut text, desk.lines(), usize::from(count))?;
    }
    add_route(&mut text, &mut desk, start, request.end)?;
    Ok(text)
}

// The same of a stored survey, or why it cannot be opened.
pub fn report_stored(heap: Global, bytes: &[u8], request: Request) -> anyhow::Result<String> {
    match StoredSurvey::open(bytes) {
        Ok(mut survey) => report(heap, &mut survey, request, Slots::holding(1)),
        Err(refusal) => Ok(format!(in heap; "stored survey: {refusal}\n")?),
    }
}

// The same of a ring plan, or why there is none.
pub fn report_ring<G: Grade + Display>(
    heap: Global,
    size: u16,
    grade: G,
    request: Request,
) -> anyhow::Result<String> {
    match RingPlan::new(size, grade) {
        Ok(mut ring) => report(heap, &mut ring, request, grade),
        Err(refusal) => Ok(format!(in heap; "ring plan: {refusal}\n")?),
    }
}
