// Functions over slices of marks: finding a place in them, asking about them, and changing all of them.
ghost use Rattle.std.specs.Prelude.{◌≡◌, ◌<◌, length, slice_set};
ghost use Rattle.items.specs.Modes.{conflicting};
ghost use Rattle.marks.specs.Marks.{meant_marks, joins, fresh_mark};
ghost use Rattle.marks.specs.Places.{Found, mark_at};
ghost use Rattle.marks.specs.Holding.{holds_own, holds_inherited, held_count};
ghost use Rattle.marks.specs.Steps.{AllChanged};
ghost use Rattle.marks.specs.Against.{linked_by};

use crate::access::Access;
use crate::mark::Mark;
use boards::{has_bay, with_bays};
use items::Kind;

// A place in the list for an access.
#[derive(Clone, Copy)]
pub(crate) enum Place {
    Held(usize),
    Vacant(usize),
}

// Finds the first held mark of the same access, or else a vacant mark, or none. One pass does both: a held mark ends it,
// and the first vacant one is remembered until then.
pub(crate) fn find_place<I: Kind + Copy>(marks: &[Mark<I>], access: &Access<I>) -> Option<Place>
    ensures { Found (meant_marks I.Kind.fields marks.now) (I.Kind.fields access.now.item) access.now.mode result }
{
    // A loop that yields by break, the form that this project gives to the search.
    'search: {
        let mut spare: Option<usize> = None;
        for (i, mark) in marks.iter().enumerate() {
            if mark.is_of(access) && !mark.is_vacant() {
                break 'search Some(Place::Held(i));
            }
            if spare.is_none() && mark.is_vacant() {
                spare = Some(i);
            }
        }
        spare.map(Place::Vacant)
    }
}

// Whether a bay holds the access as own.
pub(crate) fn is_own<I: Kind + Copy>(marks: &[Mark<I>], bay: u8, access: &Access<I>) -> bool
    ensures { result ≡ holds_own (meant_marks I.Kind.fields marks.now) bay (I.Kind.fields access.now.item) access.now.mode }
{
    marks
        .iter()
        .any(|mark| mark.is_of(access) && has_bay(mark.own, bay))
}

// Whether a bay holds the access as inherited. Own and inherited are a chain each: a test that is passed in would take more
// clauses than the second chain.
pub(crate) fn is_inherited<I: Kind + Copy>(marks: &[Mark<I>], bay: u8, access: &Access<I>) -> bool
    ensures { result ≡ holds_inherited (meant_marks I.Kind.fields marks.now) bay (I.Kind.fields access.now.item) access.now.mode }
{
    marks
        .iter()
        .any(|mark| mark.is_of(access) && has_bay(mark.inherited, bay))
}

// How many marks are held.
pub(crate) fn count_held<I: Kind + Copy>(marks: &[Mark<I>]) -> usize
    ensures { result ≡ held_count (meant_marks I.Kind.fields marks.now) }
{
    marks.iter().filter(|mark| !mark.is_vacant()).count()
}

// The bays that hold a mark against this access: either way, but the given bay only as inherited.
pub(crate) fn bays_against<I: Kind + Copy>(marks: &[Mark<I>], bay: u8, access: &Access<I>) -> u32
    ensures { result ≡ linked_by I.Kind.overlapping conflicting bay (I.Kind.fields access.now.item) access.now.mode (meant_marks I.Kind.fields marks.now) }
{
    marks
        .iter()
        .filter(|mark| access.conflicts(&mark.item, mark.mode))
        .fold(0, |bays, mark| with_bays(bays, mark.reached_from(bay)))
}

// Changes all marks.
pub(crate) fn change_all<I: Kind + Copy, F: Fn(Mark<I>) -> Mark<I>>(
    marks: &mut [Mark<I>],
    change: F,
)
    requires { F.IsAlwaysCallable change }
    ensures { AllChanged I.Kind.fields (F.post change) marks.old marks.new }
{
    for mark in marks.iter_mut() {
        *mark = change(*mark);
    }
}

// Makes the bay hold the mark at a place as own too.
pub(crate) fn join_at<I: Kind + Copy>(marks: &mut [Mark<I>], place: usize, bay: u8)
    requires { place < length marks.old }
    ensures { meant_marks I.Kind.fields marks.new ≡ slice_set (meant_marks I.Kind.fields marks.old) place (joins bay (mark_at (meant_marks I.Kind.fields marks.old) place)) }
{
    marks[place] = marks[place].joined(bay);
}

// Makes the mark at a place one of this access, which the bay alone holds, as own.
pub(crate) fn take_at<I: Kind + Copy>(
    marks: &mut [Mark<I>],
    place: usize,
    bay: u8,
    access: Access<I>,
)
    requires { place < length marks.old }
    ensures { meant_marks I.Kind.fields marks.new ≡ slice_set (meant_marks I.Kind.fields marks.old) place (joins bay (fresh_mark (I.Kind.fields access.item) access.mode)) }
{
    marks[place] = Mark::taken(access, bay);
}
