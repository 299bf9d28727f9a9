// From a packed log to a text list.
ghost use Rattle.std.specs.Prelude.{◌≡◌, length};
ghost use Rattle.items.specs.Kinds.{meant};
ghost use Rattle.items.specs.declared.kind_name.KindName.{KindName};
ghost use Rattle.translate.specs.Translation.{translated, text_of, translated_memory, Passed};
ghost use Rattle.translate.specs.Trips.{Known, PacksAgain, LogComesBack};

use crate::pass::{Measure, Pass, Write};
use items::{KindName, Refusal, TextKind};
use kinds::{Article, FieldSet, Span};
use packed::{EntryReader, Reader, read_header};

// Memory of this size has room for the list of any log: a log has fewer than 65,536 entries, and no line has more than
// 40 bytes.
pub const ROOM_FOR_ANY_LOG: usize = 2_621_440;

// A pass over a log: answers how many bytes its list has, where it can be written into this memory.
fn pass_over<P: Pass, K: TextKind + Copy>(bytes: &[u8], out: &mut [u8]) -> Result<usize, Refusal>
    ensures answer { result ≡ meant length (translated K.PackedKind.layout K.TextKind.wording bytes.now (length out.old)) }
    ensures memory { Passed P.left out.old (translated K.PackedKind.layout K.TextKind.wording bytes.now (length out.old)) out.new }
{
    let mut reader = Reader::<K>::open(bytes)?;
    let mut list = P::begin::<K>(out, reader.bays())?;
    while let Some(entry) = reader.next(bytes)? {
        P::entry(&mut list, out, &entry)?;
    }
    Ok(list.len())
}

// Translates a log of this kind, or is refused and leaves the memory as it was.
fn translate<K: TextKind + Copy>(bytes: &[u8], out: &mut [u8]) -> Result<usize, Refusal>
    ensures answer { result ≡ meant length (translated K.PackedKind.layout K.TextKind.wording bytes.now (length out.old)) }
    ensures memory { out.new ≡ translated_memory out.old (translated K.PackedKind.layout K.TextKind.wording bytes.now (length out.old)) }
    ensures again { (name : KindName) → Known name K.PackedKind.layout K.TextKind.wording → PacksAgain name K.PackedKind.layout K.TextKind.wording bytes.now (translated K.PackedKind.layout K.TextKind.wording bytes.now (length out.old)) }
{
    pass_over::<Measure, K>(bytes, out)?;
    pass_over::<Write, K>(bytes, out)
}

// Translates a log of any of the three kinds into a list, and answers how many bytes it has; or is refused and leaves
// the memory as it was.
pub fn log_to_text(bytes: &[u8], out: &mut [u8]) -> Result<usize, Refusal>
    ensures answer { result ≡ meant length (text_of bytes.now (length out.old)) }
    ensures memory { out.new ≡ translated_memory out.old (text_of bytes.now (length out.old)) }
    ensures comes_back { LogComesBack bytes.now (text_of bytes.now (length out.old)) }
{
    // An arm for each kind: a trait to carry the function over the kinds would be longer than the arms.
    match read_header(bytes)?.kind {
        KindName::Article => translate::<Article>(bytes, out),
        KindName::Span => translate::<Span>(bytes, out),
        KindName::FieldSet => translate::<FieldSet>(bytes, out),
    }
}
