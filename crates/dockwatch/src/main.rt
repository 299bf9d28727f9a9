// Watches a packed log on standard input, and prints what came of it.
#![tactic(auto)]

use packed::MOST_BYTES;
use replay::watch_log;
use std::io::{Read, Write};
use std::process::ExitCode;

fn main(rt: HostRuntime) -> anyhow::Result<ExitCode> {
    let mut log = Vec::new(rt.alloc());
    rt.stdin()
        .take(MOST_BYTES as u64 + 1)
        .read_to_end(&mut log)?;
    match watch_log(log.as_slice()) {
        Ok(summary) => {
            let line = summary.line(rt.alloc())?;
            rt.stdout().write_all(line.as_slice())?;
            Ok(ExitCode::SUCCESS)
        }
        // Each program ends so by itself: a function for it would only pass the status on.
        Err(refusal) => {
            let line = refusal.line(rt.alloc())?;
            rt.stdout().write_all(line.as_slice())?;
            Ok(ExitCode::FAILURE)
        }
    }
}
