// Turns a packed log on standard input into a text list on standard output.
#![tactic(auto)]

use packed::MOST_BYTES;
use std::io::{Read, Write};
use std::process::ExitCode;
use translate::{ROOM_FOR_ANY_LOG, log_to_text};

fn main(rt: HostRuntime) -> anyhow::Result<ExitCode> {
    let mut log = Vec::new(rt.alloc());
    rt.stdin()
        .take(MOST_BYTES as u64 + 1)
        .read_to_end(&mut log)?;
    let mut list = Vec::from_elem(rt.alloc(), 0u8, ROOM_FOR_ANY_LOG)?;
    match log_to_text(log.as_slice(), list.as_mut_slice()) {
        Ok(length) => {
            list.truncate(length);
            rt.stdout().write_all(list.as_slice())?;
            Ok(ExitCode::SUCCESS)
        }
        // Each program ends so by itself: a function for it would only pass the status on.
        Err(refusal) => {
            let line = refusal.line(rt.alloc())?;
            rt.stdout().write_all(line.as_slice())?;
            Ok(ExitCode::FAILURE)
        }
    }
}
