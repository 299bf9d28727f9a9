// A pass over the entries of a log: the first one only measures the list, and the second one writes it.
ghost use Rattle.std.specs.Prelude.{◌≡◌, ℕ, ◌+◌, List, [], ◌++◌, length, refl};
ghost use Rattle.items.specs.Entries.{entry_meant};
ghost use Rattle.items.specs.Kinds.{meant};
ghost use Rattle.items.specs.Lines.{pasted};
ghost use Rattle.items.proofs.Pasting.{pasted_none, pasted_pieces};
ghost use Rattle.text.specs.Lists.{first_line, entry_line};
ghost use Rattle.text.specs.Writing.{begins, adds, answered, writing_after};
ghost use Rattle.translate.specs.Translation.{memory_left};

use items::{Entry, Refusal, TextKind};
use text::ListWriter;

// What a pass does with each line: it leaves memory as if the line's bytes stood there from a place on, or as it was.
pub(crate) trait Pass {
    ghost left: { List ℕ → ℕ → List ℕ → List ℕ };

    // Begins a list with its first line.
    fn begin<K: TextKind>(out: &mut [u8], bays: u8) -> Result<ListWriter, Refusal>
        ensures answer { meant (λ w. w.list) result ≡ begins K.TextKind.wording K.PackedKind.layout.code (length out.old) bays }
        ensures memory { out.new ≡ memory_left left result out.old 0 (first_line K.TextKind.wording bays) };

    // Adds the line of one entry.
    fn entry<K: TextKind>(
        list: &mut ListWriter,
        out: &mut [u8],
        entry: &Entry<K>,
    ) -> Result<(), Refusal>
        ensures answer { result ≡ answered (adds K.TextKind.wording K.PackedKind.layout.code (length out.old) list.old.list (entry_meant K.Kind.fields entry.now)) }
        ensures list { list.new.list ≡ writing_after list.old.list (adds K.TextKind.wording K.PackedKind.layout.code (length out.old) list.old.list (entry_meant K.Kind.fields entry.now)) }
        ensures memory { out.new ≡ memory_left left result out.old list.old.list.place (entry_line K.TextKind.wording (entry_meant K.Kind.fields entry.now)) };

    ghost left_nothing: { (memory : List ℕ) (at : ℕ) → left memory at [] ≡ memory };

    ghost left_in_pieces: { (memory : List ℕ) (at : ℕ) (s t : List ℕ) → left memory at (s ++ t) ≡ left (left memory at s) (at + length s) t };
}

pub(crate) struct Measure {}

impl Pass for Measure {
    ghost left = { λ memory at bytes. memory };

    ghost left_nothing = { λ memory at. refl };

    ghost left_in_pieces = { λ memory at s t. refl };

    fn begin<K: TextKind>(out: &mut [u8], bays: u8) -> Result<ListWriter, Refusal> {
        ListWriter::plan::<K>(out.len(), bays)
    }

    fn entry<K: TextKind>(
        list: &mut ListWriter,
        out: &mut [u8],
        entry: &Entry<K>,
    ) -> Result<(), Refusal> {
        list.plan_entry(out.len(), entry)
    }
}

pub(crate) struct Write {}

impl Pass for Write {
    ghost left = { pasted };

    ghost left_nothing = { pasted_none };

    ghost left_in_pieces = { pasted_pieces };

    fn begin<K: TextKind>(out: &mut [u8], bays: u8) -> Result<ListWriter, Refusal> {
        ListWriter::begin::<K>(out, bays)
    }

    fn entry<K: TextKind>(
        list: &mut ListWriter,
        out: &mut [u8],
        entry: &Entry<K>,
    ) -> Result<(), Refusal> {
        list.entry(out, entry)
    }
}
