// Opens a watch.
ghost use Rattle.std.specs.Prelude.{◌≡◌, ℕ};
ghost use Rattle.items.specs.Modes.{conflicting};
ghost use Rattle.watch.specs.Opening.{Opens, AccountAtOpening, memory_of};

use crate::answer::Verdict;
use crate::bays::{Bays, MOST_BAYS};
use crate::watch::{Watch, refusal};
use boards::Board;
use items::{Kind, Reason};
use marks::{Mark, MarkList, Unopened};

impl<'a, I: Kind + Copy, B: Board> Watch<'a, I, B> {
    // Opens a watch of 1 to 32 bays over 1 to 4,096 marks: every bay is idle, no bay links to any and every mark is vacant.
    // A refused opening gives the marks back as they were.
    pub fn open(bays: u8, marks: &'a mut [Mark<I>]) -> Result<Watch<'a, I, B>, Unopened<'a, I>>
        ensures opens { Opens B.Board.linked I.Kind.fields bays marks.old result }
        ensures account { AccountAtOpening I.Kind.overlapping conflicting B.Board.linked I.Kind.fields result }
        ensures stays { (memory_of result).ghost_name ≡ marks.entry.ghost_name }
    {
        if bays < 1 || bays as usize > MOST_BAYS {
            return Err(Unopened {
                refusal: refusal(Reason::BadSize),
                marks,
            });
        }
        let marks = MarkList::open(marks)?;
        Ok(Watch {
            board: B::new(),
            marks,
            bays: Bays::idle(bays),
            verdict: Verdict::Clean,
        })
    }
}
