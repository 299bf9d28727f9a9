// A mark: an access, the bays that hold it as own and the bays that hold it as inherited.
ghost use Rattle.std.specs.Prelude.{◌≡◌};
ghost use Rattle.items.specs.declared.mode.Mode.TheVariants.{Look};
ghost use Rattle.marks.specs.Marks.{meant_mark, is_vacant, is_of, holds_either, fresh_mark, vacated, joins, inherits, leaves, hands_on, reached};

use crate::access::Access;
use boards::{has_bay, with_bay, with_bays, without_bay};
use items::{Kind, Mode};

// A mark that no bay holds is vacant; its access then means nothing. Contracts say what a mark means by `meant_mark`: a
// model of what is copied must give the item back, and an item's fields don't.
#[derive(Clone, Copy)]
pub struct Mark<I> {
    // The access lies flat beside its holders: as one value within a mark it was copied apart, through the stack, each time
    // that a pass changed the holders.
    pub(crate) item: I,
    pub(crate) mode: Mode,
    pub(crate) own: u32,
    pub(crate) inherited: u32,
}

impl<I: Kind + Copy> Mark<I> {
    // A mark of this access that no bay holds.
    fn fresh(access: Access<I>) -> Mark<I>
        ensures { meant_mark I.Kind.fields result ≡ fresh_mark (I.Kind.fields access.item) access.mode }
    {
        let Access { item, mode } = access;
        Mark {
            item,
            mode,
            own: 0,
            inherited: 0,
        }
    }

    // A vacant mark, of any item.
    pub fn vacant(item: I) -> Mark<I>
        ensures { meant_mark I.Kind.fields result ≡ fresh_mark (I.Kind.fields item) Look }
    {
        Mark::fresh(Access {
            item,
            mode: Mode::Look,
        })
    }

    // Whether no bay holds the mark.
    pub(crate) fn is_vacant(&self) -> bool
        ensures { result ≡ is_vacant (meant_mark I.Kind.fields self.now) }
    {
        self.own == 0 && self.inherited == 0
    }

    // Whether the mark has this item and mode.
    pub(crate) fn is_of(&self, access: &Access<I>) -> bool
        ensures { result ≡ is_of (I.Kind.fields access.now.item) access.now.mode (meant_mark I.Kind.fields self.now) }
    {
        self.item.same(&access.item) && self.mode == access.mode
    }

    // Whether a bay holds the mark, as own or as inherited.
    fn is_held_by(&self, bay: u8) -> bool
        ensures { result ≡ holds_either bay (meant_mark I.Kind.fields self.now) }
    {
        has_bay(self.own, bay) || has_bay(self.inherited, bay)
    }

    // A mark of this access that one bay holds, as own.
    pub(crate) fn taken(access: Access<I>, bay: u8) -> Mark<I>
        ensures { meant_mark I.Kind.fields result ≡ joins bay (fresh_mark (I.Kind.fields access.item) access.mode) }
    {
        Mark::fresh(access).joined(bay)
    }

    // The mark when no bay holds it any more; its access stays.
    pub(crate) fn vacated(self) -> Mark<I>
        ensures { meant_mark I.Kind.fields result ≡ vacated (meant_mark I.Kind.fields self) }
    {
        let Mark { item, mode, .. } = self;
        Mark::fresh(Access { item, mode })
    }

    // The mark when a bay holds it as own too.
    pub(crate) fn joined(self, bay: u8) -> Mark<I>
        ensures { meant_mark I.Kind.fields result ≡ joins bay (meant_mark I.Kind.fields self) }
    {
        Mark {
            own: with_bay(self.own, bay),
            ..self
        }
    }

    // The mark when the takers inherit it, if the bay holds it.
    pub(crate) fn inherited_by(self, bay: u8, takers: u32) -> Mark<I>
        ensures { meant_mark I.Kind.fields result ≡ inherits bay takers (meant_mark I.Kind.fields self) }
    {
        if !self.is_held_by(bay) {
            return self;
        }
        Mark {
            inherited: with_bays(self.inherited, takers),
            ..self
        }
    }

    // The mark when a bay no longer holds it.
    pub(crate) fn left(self, bay: u8) -> Mark<I>
        ensures { meant_mark I.Kind.fields result ≡ leaves bay (meant_mark I.Kind.fields self) }
    {
        Mark {
            own: without_bay(self.own, bay),
            inherited: without_bay(self.inherited, bay),
            ..self
        }
    }

    // The mark when the takers inherit it, if the bay holds it, and the bay no longer holds it.
    pub(crate) fn handed_on(self, bay: u8, takers: u32) -> Mark<I>
        ensures { meant_mark I.Kind.fields result ≡ hands_on bay takers (meant_mark I.Kind.fields self) }
    {
        self.inherited_by(bay, takers).left(bay)
    }

    // The other bays that hold the mark, and this one if it holds it as inherited.
    pub(crate) fn reached_from(&self, bay: u8) -> u32
        ensures { result ≡ reached bay (meant_mark I.Kind.fields self.now) }
    {
        with_bays(self.inherited, without_bay(self.own, bay))
    }
}
