// Serves the scripts whose files are named as arguments, each on a new book, and prints its replies under its name.
#![tactic(auto)]

use console::serve;
use std::env;
use std::fs::File;
use std::io::{BufWriter, Write};

fn serve_file(rt: &HostRuntime, name: &str) -> anyhow::Result<()> {
    let mut script = File::open(rt, name)?;
    let mut out = BufWriter::new(rt.alloc(), rt.stdout())?;
    writeln!(out, "# {name}")?;
    serve(rt.alloc(), &mut script, &mut out)
}

fn run(rt: &HostRuntime) -> anyhow::Result<()> {
    let mut names = env::args(rt)?;
    let _program = names.next();
    for name in names {
        serve_file(rt, name.as_str())?;
    }
    Ok(())
}

fn main(rt: HostRuntime) -> anyhow::Result<()> {
    run(&rt)
}
