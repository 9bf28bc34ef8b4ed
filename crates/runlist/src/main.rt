//! Runs the access list on standard input, and writes what its lines come to on standard output.
#![tactic(auto)]

use reader::running::run_list;
use std::io::{Read, Write};

// Reads the list, runs it, and writes what it came to.
fn run(rt: &HostRuntime) -> anyhow::Result<()> {
    let mut text = Vec::new(rt.alloc());
    rt.stdin().read_to_end(&mut text)?;
    let out = run_list(text.as_slice(), rt.alloc())?;
    rt.stdout().write_all(out.as_slice())?;
    Ok(())
}

// Runs the list, or ends in an error.
fn main(rt: HostRuntime) -> anyhow::Result<()> {
    run(&rt)
}
