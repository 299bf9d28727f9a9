// From a text list to a packed log.
ghost use Rattle.std.specs.Prelude.{◌≡◌, ◌/◌, length};
ghost use Rattle.items.specs.Kinds.{meant};
ghost use Rattle.items.specs.declared.kind_name.KindName.{KindName};
ghost use Rattle.packed.specs.Bits.{bytes_of};
ghost use Rattle.translate.specs.Packs.{packed_bits, PackedInto, log_of_text};
ghost use Rattle.translate.specs.Translation.{translated_memory};
ghost use Rattle.translate.specs.Trips.{Known, ListsAgain, ListComesBack};

use items::{KindName, Refusal, TextKind};
use kinds::{Article, FieldSet, Span};
use packed::{Blank, EntryReader, MOST_BYTES};
use text::{ListReader, list_kind};

// Packs a list of this kind into memory, and answers how many bytes the log has.
fn pack<K: TextKind + Copy>(text: &[u8], out: &mut [u8]) -> Result<usize, Refusal>
    ensures answer { result ≡ meant (λ bits. length bits / 8) (packed_bits K.PackedKind.layout K.TextKind.wording text.now (length out.old)) }
    ensures memory { PackedInto out.old (packed_bits K.PackedKind.layout K.TextKind.wording text.now (length out.old)) out.new }
{
    let mut reader = ListReader::<K>::open(text)?;
    let blank = Blank {};
    let mut log = blank
        .header::<K>(out, reader.bays())
        .map_err(|back| back.refusal)?;
    while let Some(entry) = reader.next(text)? {
        log = log.entry(out, &entry).map_err(|back| back.refusal)?;
    }
    Ok(log.finish().len())
}

// Packs a list of this kind, or is refused and leaves the memory as it was: a first pass tries it elsewhere.
fn pack_whole<K: TextKind + Copy>(text: &[u8], out: &mut [u8]) -> Result<usize, Refusal>
    ensures answer { result ≡ meant length (meant bytes_of (packed_bits K.PackedKind.layout K.TextKind.wording text.now (length out.old))) }
    ensures memory { out.new ≡ translated_memory out.old (meant bytes_of (packed_bits K.PackedKind.layout K.TextKind.wording text.now (length out.old))) }
    ensures again { (name : KindName) → Known name K.PackedKind.layout K.TextKind.wording → ListsAgain name K.PackedKind.layout K.TextKind.wording text.now (meant bytes_of (packed_bits K.PackedKind.layout K.TextKind.wording text.now (length out.old))) }
{
    // The trial has fixed memory, since nothing is taken from the heap here.
    let mut trial = [0u8; MOST_BYTES];
    let room = out.len().min(MOST_BYTES);
    pack::<K>(text, &mut trial[0..room])?;
    pack::<K>(text, out)
}

// Packs a list of any of the three kinds into a log, and answers how many bytes it has; or is refused and leaves the
// memory as it was.
pub fn text_to_log(text: &[u8], out: &mut [u8]) -> Result<usize, Refusal>
    ensures answer { result ≡ meant length (log_of_text text.now (length out.old)) }
    ensures memory { out.new ≡ translated_memory out.old (log_of_text text.now (length out.old)) }
    ensures comes_back { ListComesBack text.now (log_of_text text.now (length out.old)) }
{
    // An arm for each kind: a trait to carry the function over the kinds would be longer than the arms.
    match list_kind(text)? {
        KindName::Article => pack_whole::<Article>(text, out),
        KindName::Span => pack_whole::<Span>(text, out),
        KindName::FieldSet => pack_whole::<FieldSet>(text, out),
    }
}
