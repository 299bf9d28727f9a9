// A bay: a number from 0 to 31, which is tested once, where it comes in.
ghost use Rattle.std.specs.Prelude.{◌≡◌, ◌<◌, true, false};

use crate::bay_set::is_bay;
use items::{Layer, Reason, Refusal};

const NO_SUCH_BAY: Refusal = Refusal {
    reason: Reason::NoSuchBay,
    layer: Layer::Board,
    entry: 0,
};

#[derive(Clone, Copy, PartialEq, Eq)]
pub(crate) struct Bay {
    pub(crate) number: u8,
    ghost below: { number < 32 },
}

// Bay 0 stands in the places of a list that are not used yet. Written out, since no default is derived over a ghost field.
impl Default for Bay {
    ghost is_default = { λ bay. bay.number ≡ 0 };

    fn default() -> Bay {
        Bay { number: 0 }
    }
}

// A number above 31 is refused as a bay.
impl TryFrom<u8> for Bay {
    type Error = Refusal;

    ghost use Rattle.std.specs.Prelude.{MatchResult};
    ghost use Rattle.boards.specs.BaySets.{is_bay};
    ghost use Rattle.boards.specs.Boards.{no_such_bay};

    ghost try_from_gives = { λ number answer. MatchResult answer
        (λ bay. (is_bay number ≡ true) × (bay.number ≡ number))
        (λ refusal. (is_bay number ≡ false) × (refusal ≡ no_such_bay)) };

    fn try_from(number: u8) -> Result<Bay, Refusal> {
        if is_bay(number) {
            Ok(Bay { number })
        } else {
            Err(NO_SUCH_BAY)
        }
    }
}
