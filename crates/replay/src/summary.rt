// What is told of a log that was watched.
ghost use Rattle.std.specs.Prelude.{◌≡◌, IfOk, Some};
ghost use Rattle.replay.specs.SummaryLines.{summary_text, summary_line};

use items::displayed_line;
use std::alloc::{AllocError, Global};
use std::fmt;

// How many entries were watched, how many transactions were committed and aborted, how many bays were left open, and the
// bay whose commit crossed, if any.
#[derive(Clone, Copy)]
pub struct Summary {
    pub entries: u64,
    pub commits: u64,
    pub aborts: u64,
    pub open_bays: u64,
    pub crossing: Option<u8>,
}

impl fmt::Display for Summary {
    ghost output = { λ s. Some (summary_text s) };

    fn fmt<W: fmt::Write>(&self, f: &mut fmt::Formatter<W>) -> fmt::Result {
        let Summary {
            entries,
            commits,
            aborts,
            open_bays,
            crossing,
        } = self;
        match crossing {
            None => write!(f, "CLEAN {entries} {commits} {aborts} {open_bays}"),
            Some(bay) => write!(f, "CROSSED {entries} {commits} {aborts} {open_bays} {bay}"),
        }
    }
}

impl Summary {
    // The line that a program prints for a summary.
    pub fn line(&self, heap: Global) -> Result<Vec<u8>, AllocError>
        ensures { IfOk result (λ v. v.items ≡ summary_line self.now) }
    {
        displayed_line(heap, self)
    }
}
