// Opens damaged stored surveys: every value of every byte of a small one, every truncation of it, and long chains.
// What it prints is compared with what `tools/damaged_surveys.py` reads of the same bytes on its own.
#![tactic(auto)]

use grade::Refusal;
use std::alloc::Global;
use std::fmt::Write;
use stored::StoredSurvey;

// Three bridges and four records: the lists of bridges 1 and 2 have two lines each, that of bridge 3 has none.
const SURVEY: [u8; 42] = [
    3, 0, 4, 0, 2, 0, 1, 0, 0, 0, // heads
    3, 0, 4, 0, 7, 0, 0, 0, // record 1
    2, 0, 3, 0, 1, 0, 0, 0, // record 2
    3, 0, 0, 0, 0, 0, 16, 0, // record 3
    1, 0, 0, 0, 44, 1, 0, 0, // record 4
];

// Adds whether the bytes open, or the refusal's number and its place if it has one.
fn add_verdict(text: &mut String, bytes: &[u8]) -> anyhow::Result<()> {
    match StoredSurvey::open(bytes) {
        Ok(_) => text.push_str(" ok")?,
        Err(refusal) => {
            let number = refusal.number();
            write!(text, " {number}")?;
            if let Refusal::BrokenChains { record } | Refusal::WrongGrade { record } = refusal {
                write!(text, ".{record}")?;
            }
        }
    }
    Ok(())
}

// A row for one byte, at each of its values.
fn changed_byte(heap: Global, place: usize) -> anyhow::Result<String> {
    let mut bytes = SURVEY;
    let mut text = format!(in heap; "byte {place}:")?;
    for value in 0..=255u8 {
        if let Some(byte) = bytes.get_mut(place) {
            *byte = value;
        }
        add_verdict(&mut text, &bytes)?;
    }
    Ok(text)
}

fn truncated(heap: Global, length: usize) -> anyhow::Result<String> {
    let mut text = format!(in heap; "length {length}:")?;
    if let Some(bytes) = SURVEY.get(0..length) {
        add_verdict(&mut text, bytes)?;
    }
    Ok(text)
}

// One bridge, whose chain goes from record `records` down to record 1.
fn long_chain(heap: Global, records: u16) -> anyhow::Result<Vec<u8>> {
    let mut bytes = Vec::new(heap);
    bytes.extend_from_slice(&1u16.to_le_bytes())?;
    bytes.extend_from_slice(&records.to_le_bytes())?;
    bytes.extend_from_slice(&records.to_le_bytes())?;
    for next in 0..records {
        bytes.extend_from_slice(&1u16.to_le_bytes())?;
        bytes.extend_from_slice(&next.to_le_bytes())?;
        bytes.extend_from_slice(&5u32.to_le_bytes())?;
    }
    Ok(bytes)
}

fn chained(heap: Global, records: u16) -> anyhow::Result<String> {
    let mut text = format!(in heap; "chain of {records}:")?;
    let bytes = long_chain(heap, records)?;
    add_verdict(&mut text, &bytes)?;
    Ok(text)
}

fn run(rt: &HostRuntime) -> anyhow::Result<()> {
    let heap = rt.alloc();
    for place in 0..SURVEY.len() {
        let text = changed_byte(heap, place)?;
        println!(rt; "{text}")?;
    }
    for length in 0..=SURVEY.len() {
        let text = truncated(heap, length)?;
        println!(rt; "{text}")?;
    }
    for records in [0, 1, 255, 256, 257] {
        let text = chained(heap, records)?;
        println!(rt; "{text}")?;
    }
    Ok(())
}

fn main(rt: HostRuntime) -> anyhow::Result<()> {
    run(&rt)
}
