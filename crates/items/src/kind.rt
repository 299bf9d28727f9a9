// What an item kind is: first what the watch needs of it, then its packed form, then its form in a text list.
ghost use Rattle.std.specs.Prelude.{◌≡◌, ℕ, ◌^◌, ◌<◌, ◌≤◌, Bool, true, List, length, Some, Decides};
ghost use Rattle.std.specs.List.{AllByRecursion};
ghost use Rattle.items.specs.Kinds.{same_fields, Layout, Wording, Showable, item_or, meant, ranged};
ghost use Rattle.items.specs.Lists.{listed};

use crate::fields::Fields;
use crate::refusal::Refusal;

// Sameness and overlap. An item means its fields, a list of numbers, and both go by the fields alone.
pub trait Kind: Sized {
    ghost fields: { Self → List ℕ };

    ghost overlapping: { List ℕ → List ℕ → Bool };

    // Asked of the kind, as overlap is: whoever is generic over kinds has no other equality.
    fn same(&self, other: &Self) -> bool
        ensures { result ≡ same_fields (fields self.now) (fields other.now) };

    fn overlaps(&self, other: &Self) -> bool
        ensures { result ≡ overlapping (fields self.now) (fields other.now) };

    ghost same_when_equal: { (a b : Self) → Decides (same_fields (fields a) (fields b)) (fields a ≡ fields b) };

    ghost overlap_is_mutual: { (a b : List ℕ) → overlapping a b ≡ overlapping b a };
}

// A code, a width in bits, and the ways between items, their fields and their bits.
pub trait PackedKind: Kind {
    const CODE: u8;

    const WIDTH: usize;

    ghost CODE: { ℕ };

    ghost WIDTH: { ℕ };

    ghost layout: { Layout };

    // What stands for the kind in the header of a packed log.
    fn kind_code() -> u8
        ensures { result ≡ layout.code }
    {
        Self::CODE
    }

    // How many bits an item has in a packed log.
    fn bit_width() -> usize
        ensures { result ≡ layout.width }
    {
        Self::WIDTH
    }

    // An item of the kind, whichever, to fill memory with.
    fn filler() -> Self;

    // Each kind names its own fields, in their order.
    fn to_fields(&self) -> Fields
        ensures { listed result ≡ Self.Kind.fields self.now };

    // The item of these fields; any outside the kind's range are refused.
    fn from_fields(fields: &[u64]) -> Result<Self, Refusal>
        ensures { meant Self.Kind.fields result ≡ item_or (ranged layout.within fields.now) };

    fn to_bits(&self) -> u32
        ensures { result ≡ layout.packed (Self.Kind.fields self.now) };

    // The item of these bits; any other number is refused.
    fn from_bits(bits: u32) -> Result<Self, Refusal>
        ensures { meant Self.Kind.fields result ≡ item_or (layout.unpacked bits) };

    ghost layout_is_of_the_kind: { (layout.code ≡ CODE) × (layout.width ≡ WIDTH) };

    ghost narrow: { (layout.code < 8) × (layout.width ≤ 32) };

    ghost fields_in_range: { (i : Self) → layout.within (Self.Kind.fields i) ≡ true };

    ghost bits_read_back: { (i : Self) → layout.unpacked (layout.packed (Self.Kind.fields i)) ≡ Some (Self.Kind.fields i) };

    ghost bits_are_an_item: { (n : ℕ) (fs : List ℕ) → layout.unpacked n ≡ Some fs → (n < 2 ^ layout.width) × (layout.packed fs ≡ n) };
}

// How an item stands in a text list.
pub trait TextKind: PackedKind {
    ghost wording: { Wording };

    // The word of this kind on the first line of a list.
    fn kind_word() -> &'static str
        ensures { result.now ≡ wording.word };

    // How many numbers stand for an item in a line.
    fn shown_count() -> usize
        ensures { result ≡ wording.count };

    // The numbers that stand for the item in a line. How an item stands there is each kind's own, by its fields or otherwise.
    fn show(&self) -> Fields
        ensures { listed result ≡ wording.shown (Self.Kind.fields self.now) };

    // The item that these numbers stand for; any others are refused.
    fn from_shown(numbers: &[u64]) -> Result<Self, Refusal>
        ensures { meant Self.Kind.fields result ≡ item_or (wording.reads numbers.now) };

    ghost shown_reads_back: { (i : Self) → wording.reads (wording.shown (Self.Kind.fields i)) ≡ Some (Self.Kind.fields i) };

    ghost shown_is_counted: { (i : Self) → length (wording.shown (Self.Kind.fields i)) ≡ wording.count };

    ghost shown_is_short: { (i : Self) → AllByRecursion (λ n. n ≤ 9999999) (wording.shown (Self.Kind.fields i)) };

    // An item can stand in a line.
    ghost item_is_showable: { (i : Self) → Showable wording (Self.Kind.fields i) };

    ghost others_are_refused: { (ns fs : List ℕ) → wording.reads ns ≡ Some fs → wording.shown fs ≡ ns };

    // What a log can hold, a list can show.
    ghost packed_is_shown: { (n : ℕ) (fs : List ℕ) → Self.PackedKind.layout.unpacked n ≡ Some fs → Showable wording fs };

    // What a list can show, a log can hold.
    ghost shown_is_packed: { (ns fs : List ℕ) → wording.reads ns ≡ Some fs → Self.PackedKind.layout.unpacked (Self.PackedKind.layout.packed fs) ≡ Some fs };
}
