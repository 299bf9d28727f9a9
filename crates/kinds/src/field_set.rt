// Field sets: some of the six fields of one record.
ghost use Rattle.std.specs.Prelude.{◌≡◌, ◌<◌, ◌≤◌, [], ◌∷◌};
ghost use Rattle.items.specs.Kinds.{item_or, meant, ranged};
ghost use Rattle.kinds.specs.FieldSets.{is_field_set, share_field, field_set_layout, field_set_wording};
ghost use Rattle.std.proofs.Common.{arith, rules};
ghost use Rattle.std.proofs.lemmas.Nat.{and_comm};
ghost use Rattle.std.proofs.lemmas.Bool.Decides.{nat_tests};
ghost use Rattle.items.proofs.FieldLists.{of_pairs_comm};

use items::{Fields, Kind, PackedKind, Refusal, TextKind};

// A set is a number in which field k counts 2^k.
#[derive(Clone, Copy, Debug, PartialEq)]
pub struct FieldSet {
    row: u32,
    set: u32,
    ghost numbered: { row < 4096 },
    ghost some: { 1 ≤ set },
    ghost six: { set < 64 },
}

impl FieldSet {
    // These fields of the record of this number, from 0 to 4,095; the set is not empty.
    pub fn new(row: u64, set: u64) -> Result<FieldSet, Refusal>
        ensures { meant (λ f. f.row ∷ f.set ∷ []) result ≡ item_or (ranged is_field_set (row ∷ set ∷ [])) }
    {
        if row > 4095 || set < 1 || set > 63 {
            return Err(Refusal::OUT_OF_RANGE);
        }
        Ok(FieldSet {
            row: row as u32,
            set: set as u32,
        })
    }

    // The number of the record.
    pub fn row(&self) -> u32
        ensures { result ≡ self.now.row }
    {
        self.row
    }

    pub fn set(&self) -> u32
        ensures { result ≡ self.now.set }
    {
        self.set
    }
}

impl Kind for FieldSet {
    ghost fields = { λ f. f.row ∷ f.set ∷ [] };

    ghost overlapping = { share_field };

    ghost same_when_equal = { Prim.search rules };

    ghost overlap_is_mutual = { of_pairs_comm _ (λ r s q t. let turned = and_comm s t in Prim.grind (arith, nat_tests)) };

    fn same(&self, other: &FieldSet) -> bool {
        self == other
    }

    fn overlaps(&self, other: &FieldSet) -> bool {
        self.row == other.row && self.set & other.set != 0
    }
}

impl PackedKind for FieldSet {
    const CODE: u8 = 3;

    const WIDTH: usize = 18;

    ghost CODE = { 3 };

    ghost WIDTH = { 18 };

    ghost layout = { field_set_layout };

    ghost layout_is_of_the_kind = { Prim.search rules };

    ghost narrow = { Prim.search rules };

    ghost fields_in_range = { Prim.search rules };

    ghost bits_read_back = { Prim.search rules };

    ghost bits_are_an_item = { Prim.search rules };

    fn filler() -> FieldSet {
        FieldSet { row: 0, set: 1 }
    }

    fn to_fields(&self) -> Fields {
        Fields::of(&[u64::from(self.row), u64::from(self.set)])
    }

    fn from_fields(fields: &[u64]) -> Result<FieldSet, Refusal> {
        match fields {
            [row, set] => FieldSet::new(*row, *set),
            _ => Err(Refusal::OUT_OF_RANGE),
        }
    }

    fn to_bits(&self) -> u32 {
        self.row * 64 + self.set
    }

    fn from_bits(bits: u32) -> Result<FieldSet, Refusal> {
        FieldSet::new(u64::from(bits / 64), u64::from(bits % 64))
    }
}

impl TextKind for FieldSet {
    ghost wording = { field_set_wording };

    ghost shown_reads_back = { Prim.search rules };

    ghost shown_is_counted = { Prim.search rules };

    ghost shown_is_short = { Prim.search rules };

    ghost item_is_showable = { Prim.search rules };

    ghost others_are_refused = { Prim.search rules };

    ghost packed_is_shown = { Prim.search rules };

    ghost shown_is_packed = { Prim.search rules };

    fn kind_word() -> &'static str {
        "fields"
    }

    fn shown_count() -> usize {
        2
    }

    fn show(&self) -> Fields {
        self.to_fields()
    }

    fn from_shown(numbers: &[u64]) -> Result<FieldSet, Refusal> {
        Self::from_fields(numbers)
    }
}
