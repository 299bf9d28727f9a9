// A log in a file, and what is printed of it.
use crate::cut::{Filling, cut};
use items::Refusal;
use packed::MOST_BYTES;
use std::fs::File;
use std::io::{Read, Write};
use translate::log_to_text;

#[derive(Drop)]
pub struct Sample<'a> {
    name: &'a str,
    log: Vec<u8>,
}

// Prints the line of a refusal, which is made in memory that is lent.
fn print_refusal(rt: &HostRuntime, refusal: Refusal) -> anyhow::Result<()> {
    let mut line = [0u8; 64];
    let length = refusal.write(&mut line).unwrap_or(0);
    rt.stdout().write_all(line.get(..length).unwrap_or(&[]))?;
    Ok(())
}

impl<'a> Sample<'a> {
    // Reads a file, up to one byte more than a log may have: a bound of this program's own.
    pub(crate) fn read(rt: &HostRuntime, name: &'a str) -> anyhow::Result<Sample<'a>> {
        let mut log = Vec::new(rt.alloc());
        File::open(rt, name)?
            .take(MOST_BYTES as u64 + 1)
            .read_to_end(&mut log)?;
        Ok(Sample { name, log })
    }

    // Prints the list of the log, or its refusal.
    pub(crate) fn print_whole(&self, rt: &HostRuntime, memory: &mut [u8]) -> anyhow::Result<()> {
        let name = self.name;
        match log_to_text(self.log.as_slice(), memory) {
            Ok(length) => {
                println!(rt; "{name}:")?;
                rt.stdout().write_all(memory.get(..length).unwrap_or(&[]))?;
            }
            Err(refusal) => {
                print!(rt; "{name}: ")?;
                print_refusal(rt, refusal)?;
            }
        }
        Ok(())
    }

    // Prints how long the list of the log is, cut at a bit, or its refusal.
    fn print_cut(
        &self,
        rt: &HostRuntime,
        bits: usize,
        filling: Filling,
        memory: &mut [u8],
    ) -> anyhow::Result<()> {
        let front = cut(rt.alloc(), self.log.as_slice(), bits, filling)?;
        let name = self.name;
        print!(rt; "{name} bit {bits} {filling}: ")?;
        match log_to_text(front.as_slice(), memory) {
            Ok(length) => println!(rt; "list of {length} bytes")?,
            Err(refusal) => print_refusal(rt, refusal)?,
        }
        Ok(())
    }

    // Cuts the log at every bit, and fills the byte with zeros and then with ones.
    pub(crate) fn print_cuts(&self, rt: &HostRuntime, memory: &mut [u8]) -> anyhow::Result<()> {
        for bits in 0..self.log.len().saturating_mul(8) {
            self.print_cut(rt, bits, Filling::Zeros, memory)?;
            self.print_cut(rt, bits, Filling::Ones, memory)?;
        }
        Ok(())
    }
}
