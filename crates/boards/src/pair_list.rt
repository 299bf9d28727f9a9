// A link board as a list of pairs, none twice. In which order they stand is free, and no answer depends on it.
ghost use Rattle.std.specs.Prelude.{◌≡◌, true};
ghost use Rattle.boards.specs.PairLists.{listed_links, none_twice, listed_bays};

use crate::bay::Bay;
use crate::bay_set::{BAYS, with_bay};
use crate::board::Board;
use crate::pair::Pair;
use arrayvec::ArrayVec;
use items::Refusal;

// How many pairs of bays there are.
const PAIRS: usize = BAYS * BAYS;

// There are 1,024 pairs of bays and none is listed twice, so there is always room for one that is not listed.
#[derive(Drop)]
pub struct PairList {
    pairs: ArrayVec<Pair, PAIRS>,
    ghost once: { none_twice pairs.items ≡ true },
}

impl PairList {
    // Whether a pair is in the list. By a loop that ends at the pair: the library's `contains` goes by groups of pairs, which
    // takes twice the time.
    fn lists(&self, pair: Pair) -> bool
        ensures { result ≡ listed_links self.now.pairs.items pair.from.number pair.to.number }
    {
        self.pairs.iter().any(|listed| *listed == pair)
    }
}

impl Board for PairList {
    // What is listed is linked, wherever it stands: the order is free.
    ghost linked = { λ s. listed_links s.pairs.items };

    ghost only_bays = { λ s a b e. listed_bays s.pairs.items a b e };

    fn new() -> PairList {
        PairList {
            pairs: ArrayVec::new(),
        }
    }

    fn put(&mut self, from: u8, to: u8) -> Result<(), Refusal> {
        let pair = Pair::new(from, to)?;
        if !self.lists(pair) {
            self.pairs.push(pair);
        }
        Ok(())
    }

    fn drop_bay(&mut self, bay: u8) -> Result<(), Refusal> {
        let bay = Bay::try_from(bay)?;
        self.pairs.retain(|pair| !pair.names(bay));
        Ok(())
    }

    fn has(&self, from: u8, to: u8) -> Result<bool, Refusal> {
        let pair = Pair::new(from, to)?;
        Ok(self.lists(pair))
    }

    fn links_into(&self, bay: u8) -> Result<u32, Refusal> {
        let bay = Bay::try_from(bay)?;
        Ok(
            self.pairs
                .iter()
                .filter(|pair| pair.to == bay)
                .fold(0, |bays, pair| with_bay(bays, pair.from.number)),
        )
    }

    fn links_out(&self, bay: u8) -> Result<u32, Refusal> {
        let bay = Bay::try_from(bay)?;
        Ok(
            self.pairs
                .iter()
                .filter(|pair| pair.from == bay)
                .fold(0, |bays, pair| with_bay(bays, pair.to.number)),
        )
    }
}
