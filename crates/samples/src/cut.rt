// Logs cut short.
use std::alloc::{AllocError, Global};
use std::fmt;

// What fills the byte in which a log is cut.
#[derive(Clone, Copy)]
pub enum Filling {
    Zeros,
    Ones,
}

impl fmt::Display for Filling {
    fn fmt<W: fmt::Write>(&self, f: &mut fmt::Formatter<W>) -> fmt::Result {
        f.write_str(match self {
            Filling::Zeros => "zeros",
            Filling::Ones => "ones",
        })
    }
}

// The byte with its first bits kept, fewer than eight, and the others filled.
fn filled(byte: u8, kept: usize, filling: Filling) -> u8 {
    let rest = 255u8 >> (kept % 8);
    match filling {
        Filling::Zeros => byte & !rest,
        Filling::Ones => byte | rest,
    }
}

// The first bits of a log, so many of them, with the last byte filled.
pub(crate) fn cut(
    heap: Global,
    log: &[u8],
    bits: usize,
    filling: Filling,
) -> Result<Vec<u8>, AllocError> {
    let whole = log.get(..bits / 8).unwrap_or(log);
    let mut front = Vec::new(heap);
    front.extend_from_slice(whole)?;
    if bits % 8 > 0 && whole.len() < log.len() {
        front.push(filled(log[whole.len()], bits % 8, filling))?;
    }
    Ok(front)
}
