// Why a call is refused: a reason, the layer whose check failed, and the entry at which it failed.
ghost use Rattle.std.specs.Prelude.{◌≡◌, ◌++◌, length, IfOk, decimal, Some};
ghost use Rattle.items.specs.Refusals.{number_of, word_of, refused};
ghost use Rattle.items.specs.Lines.{fitted, pasted_if, refusal_text, refusal_line};

use crate::line::{displayed_line, write_line};
use std::alloc::{AllocError, Global};
use std::fmt;

// The sixteen reasons.
#[derive(Clone, Copy, Debug, PartialEq)]
pub enum Reason {
    BadSize = 1,
    AfterCrossing = 2,
    NoSuchBay = 3,
    BayOpen = 4,
    BayIdle = 5,
    NoVacantMark = 6,
    ItemOutOfRange = 7,
    ShortHeader = 8,
    UnknownForm = 9,
    OtherKind = 10,
    SpareBitSet = 11,
    NoOperation = 12,
    EntryCut = 13,
    LogTooLong = 14,
    MemoryTooShort = 15,
    MalformedLine = 16,
}

impl Reason {
    // The number by which a reason is printed.
    pub fn number(self) -> u8
        ensures { result ≡ number_of self }
    {
        self as u8
    }
}

impl fmt::Display for Reason {
    ghost output = { λ r. Some (decimal (number_of r)) };

    fn fmt<W: fmt::Write>(&self, f: &mut fmt::Formatter<W>) -> fmt::Result {
        let number = self.number();
        write!(f, "{number}")
    }
}

// The layer whose check failed.
#[derive(Clone, Copy, Debug, PartialEq)]
pub enum Layer {
    Item,
    Board,
    Watch,
    Log,
    Text,
}

impl Layer {
    // The word by which a layer is printed.
    pub fn word(self) -> &'static str
        ensures { result.now ≡ word_of self }
    {
        match self {
            Layer::Item => "item",
            Layer::Board => "board",
            Layer::Watch => "watch",
            Layer::Log => "log",
            Layer::Text => "text",
        }
    }

    // The refusal that this layer gives for a reason, at the entry of this number.
    pub fn refusal(self, reason: Reason, entry: u64) -> Refusal
        ensures { result ≡ record { reason = reason; layer = self; entry = entry } }
    {
        Refusal {
            reason,
            layer: self,
            entry,
        }
    }

    // The word, behind the one that begins a refusal's line: both as one text, since what writes into lent memory takes one.
    fn heading(self) -> &'static str
        ensures { result.now ≡ refused ++ word_of self }
    {
        match self {
            Layer::Item => "REFUSED item",
            Layer::Board => "REFUSED board",
            Layer::Watch => "REFUSED watch",
            Layer::Log => "REFUSED log",
            Layer::Text => "REFUSED text",
        }
    }
}

impl fmt::Display for Layer {
    ghost output = { λ l. Some (word_of l) };

    fn fmt<W: fmt::Write>(&self, f: &mut fmt::Formatter<W>) -> fmt::Result {
        f.write_str(self.word())
    }
}

// A refused call: nothing has changed, and this says why.
#[derive(Clone, Copy, Debug, PartialEq)]
pub struct Refusal {
    pub reason: Reason,
    pub layer: Layer,
    // The header or first line is entry 0, the first entry is 1; 0 too where no log or list is read or written.
    pub entry: u64,
}

impl fmt::Display for Refusal {
    ghost output = { λ r. Some (refusal_text r) };

    fn fmt<W: fmt::Write>(&self, f: &mut fmt::Formatter<W>) -> fmt::Result {
        let Refusal {
            reason,
            layer,
            entry,
        } = self;
        write!(f, "REFUSED {layer} {reason} {entry}")
    }
}

impl Refusal {
    // The refusal of an item outside its range.
    pub const OUT_OF_RANGE: Refusal = Refusal {
        reason: Reason::ItemOutOfRange,
        layer: Layer::Item,
        entry: 0,
    };

    // Writes the line that a program prints for a refusal, where it fits, and answers its length.
    pub fn write(&self, out: &mut [u8]) -> Option<usize>
        ensures length { result ≡ fitted (length out.old) 0 (length (refusal_line self.now)) }
        ensures memory { out.new ≡ pasted_if result out.old 0 (refusal_line self.now) }
    {
        let word = self.layer.heading().as_bytes();
        write_line(out, 0, word, u64::from(self.reason.number()), &[self.entry])
    }

    // The line that a program prints for a refusal.
    pub fn line(&self, heap: Global) -> Result<Vec<u8>, AllocError>
        ensures { IfOk result (λ v. v.items ≡ refusal_line self.now) }
    {
        displayed_line(heap, self)
    }
}
