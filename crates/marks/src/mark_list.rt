// The mark list: the marks that a caller lends, and the calls on them.
ghost use Rattle.std.specs.Prelude.{◌≡◌};
ghost use Rattle.items.specs.Modes.{conflicting};
ghost use Rattle.marks.specs.Holding.{meant_list, holds_own, holds_inherited, held_count};
ghost use Rattle.marks.specs.Opening.{meant_opening, held_memory, opened};
ghost use Rattle.marks.specs.Steps.{HoldStep, all_inherited, all_left, all_handed_on};
ghost use Rattle.marks.specs.Against.{linked_by};
ghost use Rattle.marks.specs.Places.{Found};

use crate::access::Access;
use crate::mark::Mark;
use crate::slices::{
    Place, bays_against, change_all, count_held, find_place, is_inherited, is_own, join_at, take_at,
};
use items::{Kind, Layer, Mode, Reason, Refusal};

// The least number of marks in a list.
const FEWEST: usize = 1;

// The largest number of marks in a list.
const MOST: usize = 4096;

const BAD_SIZE: Refusal = Refusal {
    reason: Reason::BadSize,
    layer: Layer::Watch,
    entry: 0,
};

// Marks in memory that the caller lends. Contracts say what they mean by `meant_list`: a model would hide the name of the
// lent memory, which each call keeps.
#[derive(Drop)]
pub struct MarkList<'a, I> {
    marks: &'a mut [Mark<I>],
}

// A refused opening: why, and the marks, unchanged.
#[derive(Drop)]
pub struct Unopened<'a, I> {
    pub refusal: Refusal,
    pub marks: &'a mut [Mark<I>],
}

// Who wants no more than the reason lets the marks go.
impl<I> From<Unopened<'_, I>> for Refusal {
    ghost from_gives = { λ x y. y ≡ x.refusal };

    fn from(unopened: Unopened<'_, I>) -> Refusal {
        unopened.refusal
    }
}

// Each call hands the slice to one function, with the access or the change that it is about.
impl<'a, I: Kind + Copy> MarkList<'a, I> {
    // Opens a list of 1 to 4,096 marks, all of them vacant from then on.
    pub fn open(marks: &'a mut [Mark<I>]) -> Result<MarkList<'a, I>, Unopened<'a, I>>
        ensures answer { meant_opening I.Kind.fields result ≡ opened I.Kind.fields marks.old }
        ensures stays { (held_memory result).ghost_name ≡ marks.entry.ghost_name }
    {
        if marks.len() < FEWEST || marks.len() > MOST {
            return Err(Unopened {
                refusal: BAD_SIZE,
                marks,
            });
        }
        change_all(marks, |mark| mark.vacated());
        Ok(MarkList { marks })
    }

    // Finds a place for an access.
    fn find(&self, access: &Access<I>) -> Option<Place>
        ensures { Found (meant_list I.Kind.fields self.now) (I.Kind.fields access.now.item) access.now.mode result }
    {
        find_place(self.marks, access)
    }

    // Makes the bay hold as own the first held mark with the item and mode, or else a vacant mark that is given both, and
    // says whether it was done; where there is neither, nothing changes.
    pub fn hold(&mut self, bay: u8, item: I, mode: Mode) -> bool
        ensures step { HoldStep bay (I.Kind.fields item) mode (meant_list I.Kind.fields self.old) result (meant_list I.Kind.fields self.new) }
        ensures stays { self.new.marks.ghost_name ≡ self.old.marks.ghost_name }
    {
        let access = Access { item, mode };
        let Some(place) = self.find(&access) else {
            return false;
        };
        match place {
            Place::Held(place) => join_at(self.marks, place, bay),
            Place::Vacant(place) => take_at(self.marks, place, bay, access),
        }
        true
    }

    // Makes each bay in the set of takers hold as inherited every mark that the bay holds, either way.
    pub fn inherit(&mut self, bay: u8, takers: u32)
        ensures after { meant_list I.Kind.fields self.new ≡ all_inherited bay takers (meant_list I.Kind.fields self.old) }
        ensures stays { self.new.marks.ghost_name ≡ self.old.marks.ghost_name }
    {
        change_all(self.marks, |mark| mark.inherited_by(bay, takers));
    }

    // Makes the bay leave all marks.
    pub fn leave(&mut self, bay: u8)
        ensures after { meant_list I.Kind.fields self.new ≡ all_left bay (meant_list I.Kind.fields self.old) }
        ensures stays { self.new.marks.ghost_name ≡ self.old.marks.ghost_name }
    {
        change_all(self.marks, |mark| mark.left(bay));
    }

    // Does both in one pass: the takers inherit, then the bay leaves.
    pub fn hand_on(&mut self, bay: u8, takers: u32)
        ensures after { meant_list I.Kind.fields self.new ≡ all_handed_on bay takers (meant_list I.Kind.fields self.old) }
        ensures stays { self.new.marks.ghost_name ≡ self.old.marks.ghost_name }
    {
        change_all(self.marks, |mark| mark.handed_on(bay, takers));
    }

    // The set of the other bays that hold, either way, a mark whose item overlaps this one and whose mode conflicts with
    // this one, together with the bay itself if it holds such a mark as inherited.
    pub fn linked_by(&self, bay: u8, item: &I, mode: Mode) -> u32
        ensures { result ≡ linked_by I.Kind.overlapping conflicting bay (I.Kind.fields item.now) mode (meant_list I.Kind.fields self.now) }
    {
        let access = Access { item: *item, mode };
        bays_against(self.marks, bay, &access)
    }

    // How many marks are held.
    pub fn held_count(&self) -> usize
        ensures { result ≡ held_count (meant_list I.Kind.fields self.now) }
    {
        count_held(self.marks)
    }

    // Whether the bay holds the item and mode as own.
    pub fn holds_own(&self, bay: u8, item: &I, mode: Mode) -> bool
        ensures { result ≡ holds_own (meant_list I.Kind.fields self.now) bay (I.Kind.fields item.now) mode }
    {
        let access = Access { item: *item, mode };
        is_own(self.marks, bay, &access)
    }

    // Whether the bay holds the item and mode as inherited.
    pub fn holds_inherited(&self, bay: u8, item: &I, mode: Mode) -> bool
        ensures { result ≡ holds_inherited (meant_list I.Kind.fields self.now) bay (I.Kind.fields item.now) mode }
    {
        let access = Access { item: *item, mode };
        is_inherited(self.marks, bay, &access)
    }
}
