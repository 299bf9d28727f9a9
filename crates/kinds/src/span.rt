// Spans: some bytes of the stock file, next to one another.
ghost use Rattle.std.specs.Prelude.{◌≡◌, ◌+◌, ◌≤◌, [], ◌∷◌};
ghost use Rattle.items.specs.Kinds.{item_or, meant, ranged};
ghost use Rattle.kinds.specs.Spans.{is_span, share_byte, span_layout, span_wording};
ghost use Rattle.std.proofs.Common.{arith, rules};
ghost use Rattle.std.proofs.lemmas.Bool.Decides.{nat_tests};
ghost use Rattle.items.proofs.FieldLists.{of_pairs_comm};

use items::{Fields, Kind, PackedKind, Refusal, TextKind};

#[derive(Clone, Copy, Debug, PartialEq)]
pub struct Span {
    start: u32,
    length: u32,
    ghost some: { 1 ≤ length },
    ghost short: { length ≤ 64 },
    ghost inside: { start + length ≤ 1048576 },
}

impl Span {
    // The span of this length, 1 to 64, from this start; it ends within the file's 1,048,576 bytes.
    pub fn new(start: u64, length: u64) -> Result<Span, Refusal>
        ensures { meant (λ s. s.start ∷ s.length ∷ []) result ≡ item_or (ranged is_span (start ∷ length ∷ [])) }
    {
        if length < 1 || length > 64 || start > 1048576 - length {
            return Err(Refusal::OUT_OF_RANGE);
        }
        Ok(Span {
            start: start as u32,
            length: length as u32,
        })
    }

    pub fn start(&self) -> u32
        ensures { result ≡ self.now.start }
    {
        self.start
    }

    pub fn length(&self) -> u32
        ensures { result ≡ self.now.length }
    {
        self.length
    }
}

impl Kind for Span {
    ghost fields = { λ s. s.start ∷ s.length ∷ [] };

    ghost overlapping = { share_byte };

    ghost same_when_equal = { Prim.search rules };

    ghost overlap_is_mutual = { of_pairs_comm _ (λ s l t m. Prim.grind (arith, nat_tests)) };

    fn same(&self, other: &Span) -> bool {
        self == other
    }

    fn overlaps(&self, other: &Span) -> bool {
        self.start < other.start + other.length && other.start < self.start + self.length
    }
}

impl PackedKind for Span {
    const CODE: u8 = 2;

    const WIDTH: usize = 26;

    ghost CODE = { 2 };

    ghost WIDTH = { 26 };

    ghost layout = { span_layout };

    ghost layout_is_of_the_kind = { Prim.search rules };

    ghost narrow = { Prim.search rules };

    ghost fields_in_range = { Prim.search rules };

    ghost bits_read_back = { Prim.search rules };

    ghost bits_are_an_item = { Prim.search rules };

    fn filler() -> Span {
        Span {
            start: 0,
            length: 1,
        }
    }

    fn to_fields(&self) -> Fields {
        Fields::of(&[u64::from(self.start), u64::from(self.length)])
    }

    fn from_fields(fields: &[u64]) -> Result<Span, Refusal> {
        match fields {
            [start, length] => Span::new(*start, *length),
            _ => Err(Refusal::OUT_OF_RANGE),
        }
    }

    fn to_bits(&self) -> u32 {
        self.start * 64 + (self.length - 1)
    }

    fn from_bits(bits: u32) -> Result<Span, Refusal> {
        Span::new(u64::from(bits / 64), u64::from(bits % 64 + 1))
    }
}

impl TextKind for Span {
    ghost wording = { span_wording };

    ghost shown_reads_back = { Prim.search rules };

    ghost shown_is_counted = { Prim.search rules };

    ghost shown_is_short = { Prim.search rules };

    ghost item_is_showable = { Prim.search rules };

    ghost others_are_refused = { Prim.search rules };

    ghost packed_is_shown = { Prim.search rules };

    ghost shown_is_packed = { Prim.search rules };

    fn kind_word() -> &'static str {
        "span"
    }

    fn shown_count() -> usize {
        2
    }

    fn show(&self) -> Fields {
        self.to_fields()
    }

    fn from_shown(numbers: &[u64]) -> Result<Span, Refusal> {
        Self::from_fields(numbers)
    }
}
