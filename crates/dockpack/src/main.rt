// Turns a text list on standard input into a packed log on standard output.
#![tactic(auto)]

use packed::MOST_BYTES;
use std::io::{Read, Write};
use std::process::ExitCode;
use translate::text_to_log;

fn main(rt: HostRuntime) -> anyhow::Result<ExitCode> {
    let mut list = Vec::new(rt.alloc());
    rt.stdin().read_to_end(&mut list)?;
    let mut log = Vec::from_elem(rt.alloc(), 0u8, MOST_BYTES)?;
    match text_to_log(list.as_slice(), log.as_mut_slice()) {
        Ok(length) => {
            log.truncate(length);
            rt.stdout().write_all(log.as_slice())?;
            Ok(ExitCode::SUCCESS)
        }
        // Each program ends so by itself: a function for it would only pass the status on.
        Err(refusal) => {
            let line = refusal.line(rt.alloc())?;
            rt.stdout().write_all(line.as_slice())?;
            Ok(ExitCode::FAILURE)
        }
    }
}
