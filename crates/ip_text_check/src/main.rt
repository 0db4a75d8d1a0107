//! Says of each line of standard input what it spells. A line is the name of a form, a space and a
//! text; its answer is `ok`, the value as numbers and the printed form, or `at` and the place of the
//! fault. `bench/ip-text` compares the answers with those of an independent reader.
#![tactic(auto)]

mod answer;

use answer::answer_line;
use net_types::NoMemory;
use std::alloc::Global;
use std::io::{self, Read, Write};

/// The answers to all lines.
fn answers(alloc: Global, input: &[u8]) -> Result<Vec<u8>, NoMemory> {
    let mut out = Vec::new(alloc);
    let lines = match input {
        [front @ .., b'\n'] => front,
        _ => input,
    };
    for line in lines.split(|byte| *byte == b'\n') {
        answer_line(alloc, &mut out, line)?;
        out.push(b'\n')?;
    }
    Ok(out)
}

fn main(rt: HostRuntime) -> io::Result<()> {
    let alloc = rt.alloc();
    let mut input = Vec::new(alloc);
    rt.stdin().read_to_end(&mut input)?;
    let out = answers(alloc, input.as_slice())?;
    rt.stdout().write_all(out.as_slice())
}
