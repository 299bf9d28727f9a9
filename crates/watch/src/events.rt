// The four events, and any of them as one call. Each is the step of its event, and extends the account of every history
// that led to the watch as it is. Each event is a call by its own name, and answers no more than that event can.
ghost use Rattle.std.specs.Prelude.{◌≡◌, ℕ, List};
ghost use Rattle.items.specs.Entries.{event_meant};
ghost use Rattle.items.specs.Modes.{conflicting};
ghost use Rattle.items.specs.declared.entry.Event.TheVariants.{Begin, Commit, Abort, Access};
ghost use Rattle.watch.specs.Histories.{History};
ghost use Rattle.watch.specs.Steps.{Step};
ghost use Rattle.watch.specs.Answers.{done_or, verdict_or};
ghost use Rattle.watch.specs.Watches.{state_of, call_of};
ghost use Rattle.watch.specs.Accounts.{Account, Extends};
ghost use Rattle.watch.specs.Vacancy.{VacancySettled};

use crate::answer::{Answer, Verdict};
use crate::watch::Watch;
use boards::Board;
use items::{Event, Kind, Mode, Refusal};

impl<I: Kind + Copy, B: Board> Watch<'_, I, B> {
    // Makes one call: an event in a bay.
    pub fn call(&mut self, bay: u8, event: Event<I>) -> Answer
        ensures step { Step I.Kind.overlapping conflicting (state_of B.Board.linked I.Kind.fields self.old) (call_of bay (event_meant I.Kind.fields event)) (result) (state_of B.Board.linked I.Kind.fields self.new) }
        ensures account { Extends I.Kind.overlapping conflicting (state_of B.Board.linked I.Kind.fields self.old) (call_of bay (event_meant I.Kind.fields event)) (result) (state_of B.Board.linked I.Kind.fields self.new) }
        ensures stays { self.new.marks.marks.ghost_name ≡ self.old.marks.marks.ghost_name }
        ensures settled { (h : History) → Account I.Kind.overlapping conflicting h (state_of B.Board.linked I.Kind.fields self.old) → VacancySettled I.Kind.overlapping conflicting h (state_of B.Board.linked I.Kind.fields self.old) }
    {
        self.step(bay, event)
    }

    // Begins a transaction in a bay.
    pub fn begin(&mut self, bay: u8) -> Result<(), Refusal>
        ensures step { Step I.Kind.overlapping conflicting (state_of B.Board.linked I.Kind.fields self.old) (call_of bay Begin) (done_or result) (state_of B.Board.linked I.Kind.fields self.new) }
        ensures account { Extends I.Kind.overlapping conflicting (state_of B.Board.linked I.Kind.fields self.old) (call_of bay Begin) (done_or result) (state_of B.Board.linked I.Kind.fields self.new) }
        ensures stays { self.new.marks.marks.ghost_name ≡ self.old.marks.marks.ghost_name }
    {
        self.call(bay, Event::Begin)?;
        Ok(())
    }

    // Accesses an item in the transaction of a bay.
    pub fn access(&mut self, bay: u8, mode: Mode, item: I) -> Result<(), Refusal>
        ensures step { Step I.Kind.overlapping conflicting (state_of B.Board.linked I.Kind.fields self.old) (call_of bay (Access mode (I.Kind.fields item))) (done_or result) (state_of B.Board.linked I.Kind.fields self.new) }
        ensures account { Extends I.Kind.overlapping conflicting (state_of B.Board.linked I.Kind.fields self.old) (call_of bay (Access mode (I.Kind.fields item))) (done_or result) (state_of B.Board.linked I.Kind.fields self.new) }
        ensures stays { self.new.marks.marks.ghost_name ≡ self.old.marks.marks.ghost_name }
        ensures settled { (h : History) → Account I.Kind.overlapping conflicting h (state_of B.Board.linked I.Kind.fields self.old) → VacancySettled I.Kind.overlapping conflicting h (state_of B.Board.linked I.Kind.fields self.old) }
    {
        self.call(bay, Event::Access(mode, item))?;
        Ok(())
    }

    // Commits the transaction of a bay.
    pub fn commit(&mut self, bay: u8) -> Result<Verdict, Refusal>
        ensures step { Step I.Kind.overlapping conflicting (state_of B.Board.linked I.Kind.fields self.old) (call_of bay Commit) (verdict_or result) (state_of B.Board.linked I.Kind.fields self.new) }
        ensures account { Extends I.Kind.overlapping conflicting (state_of B.Board.linked I.Kind.fields self.old) (call_of bay Commit) (verdict_or result) (state_of B.Board.linked I.Kind.fields self.new) }
        ensures stays { self.new.marks.marks.ghost_name ≡ self.old.marks.marks.ghost_name }
    {
        Ok(self.call(bay, Event::Commit)?.verdict())
    }

    // Aborts the transaction of a bay.
    pub fn abort(&mut self, bay: u8) -> Result<(), Refusal>
        ensures step { Step I.Kind.overlapping conflicting (state_of B.Board.linked I.Kind.fields self.old) (call_of bay Abort) (done_or result) (state_of B.Board.linked I.Kind.fields self.new) }
        ensures account { Extends I.Kind.overlapping conflicting (state_of B.Board.linked I.Kind.fields self.old) (call_of bay Abort) (done_or result) (state_of B.Board.linked I.Kind.fields self.new) }
        ensures stays { self.new.marks.marks.ghost_name ≡ self.old.marks.marks.ghost_name }
    {
        self.call(bay, Event::Abort)?;
        Ok(())
    }
}
