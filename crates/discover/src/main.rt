// Surveys a field and prints the bridges found, the lines and the widest route from the start to an end bridge.
//
//     discover ring K SLOTS START END      a ring of K bridges, every line with SLOTS slots
//     discover file PATH START END         a stored survey in a file
//     discover input START END             a stored survey on standard input
#![tactic(auto)]

use anyhow::anyhow;
use discovery::{Detail, Request, report_ring, report_stored};
use grade::Slots;
use std::alloc::Global;
use std::io::Read;
use std::{env, fs};

const USAGE: &str =
    "usage: discover ring K SLOTS START END, discover file PATH START END, or discover input START END";

// The largest book, and a route between two bridges.
fn request(start: &str, end: &str) -> anyhow::Result<Request> {
    Ok(Request {
        bridges: 256,
        slots: 1024,
        start: start.parse::<u16>()?,
        end: end.parse::<u16>()?,
        detail: Detail::Full,
    })
}

fn tell_ring(heap: Global, k: &str, slots: &str, asked: Request) -> anyhow::Result<String> {
    match Slots::new(slots.parse::<u32>()?) {
        Ok(grade) => report_ring(heap, k.parse::<u16>()?, grade, asked),
        Err(refusal) => Ok(format!(in heap; "slots: {refusal}\n")?),
    }
}

// What is printed, by the words of the command.
fn answer(rt: &HostRuntime, words: &[String]) -> anyhow::Result<String> {
    let heap = rt.alloc();
    match words {
        [kind, k, slots, start, end] if kind.as_str() == "ring" => {
            tell_ring(
                heap,
                k.as_str(),
                slots.as_str(),
                request(start.as_str(), end.as_str())?,
            )
        }
        [kind, path, start, end] if kind.as_str() == "file" => {
            let bytes = fs::read(rt, path.as_str())?;
            report_stored(heap, &bytes, request(start.as_str(), end.as_str())?)
        }
        [kind, start, end] if kind.as_str() == "input" => {
            let mut bytes = Vec::new(heap);
            rt.stdin().read_to_end(&mut bytes)?;
            report_stored(heap, &bytes, request(start.as_str(), end.as_str())?)
        }
        _ => Err(anyhow!(USAGE)),
    }
}

fn run(rt: &HostRuntime) -> anyhow::Result<()> {
    let words: Vec<String> = env::args(rt)?.skip(1).collect(rt.alloc())?;
    let text = answer(rt, &words)?;
    print!(rt; "{text}")?;
    Ok(())
}

fn main(rt: HostRuntime) -> anyhow::Result<()> {
    run(&rt)
}
