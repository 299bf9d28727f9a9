// A pair of bays, of which the first links to the second.
ghost use Rattle.std.specs.Prelude.{◌≡◌};

use crate::bay::Bay;
use items::Refusal;

#[derive(Clone, Copy, Default, PartialEq, Eq)]
pub(crate) struct Pair {
    pub(crate) from: Bay,
    pub(crate) to: Bay,
}

impl Pair {
    ghost use Rattle.std.specs.Prelude.{true, false, ◌&&◌, MatchResult};
    ghost use Rattle.boards.specs.BaySets.{is_bay};
    ghost use Rattle.boards.specs.Boards.{no_such_bay};
    ghost use Rattle.boards.specs.PairLists.{names_bay};

    // A pair in which either number is above 31 is refused.
    pub(crate) fn new(from: u8, to: u8) -> Result<Pair, Refusal>
        ensures { MatchResult result
            (λ pair. ((is_bay from && is_bay to) ≡ true) × (pair.from.number ≡ from) × (pair.to.number ≡ to))
            (λ refusal. ((is_bay from && is_bay to) ≡ false) × (refusal ≡ no_such_bay)) }
    {
        Ok(Pair {
            from: Bay::try_from(from)?,
            to: Bay::try_from(to)?,
        })
    }

    // Whether a bay is the first or the second of the pair.
    pub(crate) fn names(self, bay: Bay) -> bool
        ensures { result ≡ names_bay bay.number self }
    {
        self.from == bay || self.to == bay
    }
}
