// Articles: the numbers that a stockroom gives to what it keeps.
ghost use Rattle.std.specs.Prelude.{◌≡◌, ◌<◌, [], ◌∷◌};
ghost use Rattle.items.specs.Kinds.{same_fields, item_or, meant, ranged};
ghost use Rattle.kinds.specs.Articles.{is_article, article_layout, article_wording};
ghost use Rattle.items.proofs.FieldLists.{same_fields_comm};
ghost use Rattle.std.proofs.Common.{rules, arith};

use items::{Fields, Kind, PackedKind, Refusal, TextKind};

#[derive(Clone, Copy, Debug, PartialEq)]
pub struct Article {
    number: u16,
    ghost small: { number < 16384 },
}

impl Article {
    // The article of this number, from 0 to 16,383.
    pub fn new(number: u64) -> Result<Article, Refusal>
        ensures { meant (λ a. a.number ∷ []) result ≡ item_or (ranged is_article (number ∷ [])) }
    {
        if number > 16383 {
            return Err(Refusal::OUT_OF_RANGE);
        }
        Ok(Article {
            number: number as u16,
        })
    }

    pub fn number(&self) -> u16
        ensures { result ≡ self.now.number }
    {
        self.number
    }
}

impl Kind for Article {
    ghost fields = { λ a. a.number ∷ [] };

    ghost overlapping = { same_fields };

    ghost same_when_equal = { Prim.search rules };

    ghost overlap_is_mutual = { same_fields_comm };

    fn same(&self, other: &Article) -> bool {
        self == other
    }

    fn overlaps(&self, other: &Article) -> bool {
        self.number == other.number
    }
}

impl PackedKind for Article {
    const CODE: u8 = 1;

    const WIDTH: usize = 14;

    ghost CODE = { 1 };

    ghost WIDTH = { 14 };

    ghost layout = { article_layout };

    ghost layout_is_of_the_kind = { Prim.search rules };

    ghost narrow = { Prim.search rules };

    ghost fields_in_range = { Prim.search rules };

    ghost bits_read_back = { Prim.search rules };

    ghost bits_are_an_item = { Prim.search rules };

    fn filler() -> Article {
        Article { number: 0 }
    }

    fn to_fields(&self) -> Fields {
        Fields::of(&[u64::from(self.number)])
    }

    fn from_fields(fields: &[u64]) -> Result<Article, Refusal> {
        match fields {
            [number] => Article::new(*number),
            _ => Err(Refusal::OUT_OF_RANGE),
        }
    }

    fn to_bits(&self) -> u32 {
        u32::from(self.number)
    }

    fn from_bits(bits: u32) -> Result<Article, Refusal> {
        Article::new(u64::from(bits))
    }
}

impl TextKind for Article {
    ghost wording = { article_wording };

    ghost shown_reads_back = { Prim.search rules };

    ghost shown_is_counted = { Prim.search rules };

    ghost shown_is_short = { Prim.search rules };

    ghost item_is_showable = { Prim.search rules };

    ghost others_are_refused = { Prim.search rules };

    ghost packed_is_shown = { Prim.search rules };

    ghost shown_is_packed = { Prim.search rules };

    fn kind_word() -> &'static str {
        "article"
    }

    fn shown_count() -> usize {
        1
    }

    fn show(&self) -> Fields {
        self.to_fields()
    }

    fn from_shown(numbers: &[u64]) -> Result<Article, Refusal> {
        Self::from_fields(numbers)
    }
}
