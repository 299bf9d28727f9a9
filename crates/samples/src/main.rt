// Translates many files, and prints for each what docktext prints: the names before the word `cuts` as they are, those
// behind it cut at every bit.
#![tactic(auto)]

mod cut;
mod sample;
#[cfg(test)]
mod tests;

use crate::sample::Sample;
use std::env;
use translate::ROOM_FOR_ANY_LOG;

fn main(rt: HostRuntime) -> anyhow::Result<()> {
    let mut memory = Vec::from_elem(rt.alloc(), 0u8, ROOM_FOR_ANY_LOG)?;
    // A flag, since the word stands among the names.
    let mut cutting = false;
    for name in env::args(&rt)?.skip(1) {
        if name.as_str() == "cuts" {
            cutting = true;
            continue;
        }
        let sample = Sample::read(&rt, name.as_str())?;
        if cutting {
            sample.print_cuts(&rt, memory.as_mut_slice())?;
        } else {
            sample.print_whole(&rt, memory.as_mut_slice())?;
        }
    }
    Ok(())
}
