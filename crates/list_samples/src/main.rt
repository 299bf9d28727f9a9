// Packs many lists and turns them back, and prints a line for each.
#![tactic(auto)]

use items::Refusal;
use packed::MOST_BYTES;
use std::env;
use std::fs::File;
use std::io::{Read, Write};
use translate::{ROOM_FOR_ANY_LOG, log_to_text, text_to_log};

// How many bytes of a packed list are printed.
const SHOWN: usize = 40;

// Prints the line of a refusal.
fn print_refusal(rt: &HostRuntime, refusal: Refusal) -> anyhow::Result<()> {
    let line = refusal.line(rt.alloc())?;
    rt.stdout().write_all(line.as_slice())?;
    Ok(())
}

// Reads a list, up to as many bytes as any log's has, and prints how long the log of a list is and how long the list that it turns back into, and the first bytes of the log; or
// the refusal.
fn print_list(rt: &HostRuntime, name: &str, memory: &mut [u8]) -> anyhow::Result<()> {
    let mut list = Vec::new(rt.alloc());
    File::open(rt, name)?
        .take(ROOM_FOR_ANY_LOG as u64)
        .read_to_end(&mut list)?;
    let mut log = Vec::from_elem(rt.alloc(), 0u8, MOST_BYTES)?;
    print!(rt; "{name}: ")?;
    let bytes = match text_to_log(list.as_slice(), log.as_mut_slice()) {
        Ok(bytes) => bytes,
        Err(refusal) => return print_refusal(rt, refusal),
    };
    log.truncate(bytes);
    let length = match log_to_text(log.as_slice(), memory) {
        Ok(length) => length,
        Err(refusal) => return print_refusal(rt, refusal),
    };
    print!(rt; "log of {bytes} bytes, list of {length} bytes:")?;
    for byte in log.as_slice().iter().take(SHOWN) {
        print!(rt; " {byte}")?;
    }
    println!(rt)?;
    Ok(())
}

fn main(rt: HostRuntime) -> anyhow::Result<()> {
    let mut memory = Vec::from_elem(rt.alloc(), 0u8, ROOM_FOR_ANY_LOG)?;
    for name in env::args(&rt)?.skip(1) {
        print_list(&rt, name.as_str(), memory.as_mut_slice())?;
    }
    Ok(())
}
