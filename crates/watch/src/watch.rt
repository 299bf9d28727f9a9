// The watch: a link board, a mark list, the records of the bays and the verdict so far.
ghost use Rattle.std.specs.Prelude.{◌≡◌, Ok};
ghost use Rattle.items.specs.Entries.{event_meant};
ghost use Rattle.items.specs.Modes.{conflicting};
ghost use Rattle.items.specs.declared.entry.Event.TheVariants.{Commit, Abort, Access};
ghost use Rattle.watch.specs.declared.answer.Outcome.TheVariants.{Done, Committed};
ghost use Rattle.watch.specs.declared.bay_record.BayState.TheVariants.{Open};
ghost use Rattle.watch.specs.Steps.{refusal_for, Takes, Step};
ghost use Rattle.watch.specs.Watches.{state_of, call_of};

use crate::answer::{Answer, Outcome, Verdict};
use crate::bay_record::{BayRecord, BayState};
use crate::bays::Bays;
use crate::links::{link_between, link_to};
use boards::Board;
use items::{Event, Kind, Layer, Mode, Reason, Refusal};
use marks::MarkList;

// Over the marks that a caller lends, which nothing else changes while the watch lives. Contracts read the fields, by the
// state that they mean, and not a model, which would hide whose memory the marks lie in.
#[derive(Drop)]
pub struct Watch<'a, I, B> {
    pub(crate) board: B,
    pub(crate) marks: MarkList<'a, I>,
    pub(crate) bays: Bays,
    pub(crate) verdict: Verdict,
}

// The watch's refusal for this reason.
pub(crate) fn refusal(reason: Reason) -> Refusal
    ensures { result ≡ refusal_for reason }
{
    Layer::Watch.refusal(reason, 0)
}

// A step finds a bay open and hands it to one of the first three, which all ask for no more than that, by one definition.
impl<I: Kind + Copy, B: Board> Watch<'_, I, B> {
    // An access in an open bay.
    fn access_in(&mut self, bay: u8, mode: Mode, item: I) -> Answer
        requires taken { Takes Open (state_of B.Board.linked I.Kind.fields self.old) bay }
        ensures step { Step I.Kind.overlapping conflicting (state_of B.Board.linked I.Kind.fields self.old) (call_of bay (Access mode (I.Kind.fields item))) result (state_of B.Board.linked I.Kind.fields self.new) }
        ensures stays { self.new.marks.marks.ghost_name ≡ self.old.marks.marks.ghost_name }
    {
        let froms = self.marks.linked_by(bay, &item, mode);
        if !self.marks.hold(bay, item, mode) {
            return Err(refusal(Reason::NoVacantMark));
        }
        link_to(&mut self.board, froms, bay);
        Ok(Outcome::Done)
    }

    // A commit in an open bay.
    fn commit_in(&mut self, bay: u8) -> Verdict
        requires taken { Takes Open (state_of B.Board.linked I.Kind.fields self.old) bay }
        ensures step { Step I.Kind.overlapping conflicting (state_of B.Board.linked I.Kind.fields self.old) (call_of bay Commit) (Ok (Committed result)) (state_of B.Board.linked I.Kind.fields self.new) }
        ensures stays { self.new.marks.marks.ghost_name ≡ self.old.marks.marks.ghost_name }
    {
        self.bays.change(bay, BayRecord::commit);
        if self.board.has(bay, bay).unwrap() {
            self.verdict = Verdict::Crossed;
            return Verdict::Crossed;
        }
        let froms = self.board.links_into(bay).unwrap();
        let tos = self.board.links_out(bay).unwrap();
        self.marks.hand_on(bay, froms);
        link_between(&mut self.board, froms, tos);
        self.board.drop_bay(bay).unwrap();
        Verdict::Clean
    }

    // An abort in an open bay.
    fn abort_in(&mut self, bay: u8)
        requires taken { Takes Open (state_of B.Board.linked I.Kind.fields self.old) bay }
        ensures step { Step I.Kind.overlapping conflicting (state_of B.Board.linked I.Kind.fields self.old) (call_of bay Abort) (Ok Done) (state_of B.Board.linked I.Kind.fields self.new) }
        ensures stays { self.new.marks.marks.ghost_name ≡ self.old.marks.marks.ghost_name }
    {
        self.bays.change(bay, BayRecord::abort);
        self.marks.leave(bay);
        self.board.drop_bay(bay).unwrap();
    }

    // One call: an event in a bay.
    pub(crate) fn step(&mut self, bay: u8, event: Event<I>) -> Answer
        ensures step { Step I.Kind.overlapping conflicting (state_of B.Board.linked I.Kind.fields self.old) (call_of bay (event_meant I.Kind.fields event)) result (state_of B.Board.linked I.Kind.fields self.new) }
        ensures stays { self.new.marks.marks.ghost_name ≡ self.old.marks.marks.ghost_name }
    {
        if let Verdict::Crossed = self.verdict {
            return Err(refusal(Reason::AfterCrossing));
        }
        match (self.bay(bay)?.state, event) {
            (BayState::Idle, Event::Begin) => {
                self.bays.change(bay, BayRecord::begin);
                Ok(Outcome::Done)
            }
            (BayState::Idle, _) => Err(refusal(Reason::BayIdle)),
            (BayState::Open, Event::Begin) => Err(refusal(Reason::BayOpen)),
            (BayState::Open, Event::Access(mode, item)) => self.access_in(bay, mode, item),
            (BayState::Open, Event::Commit) => { Ok(Outcome::Committed(self.commit_in(bay))) }
            (BayState::Open, Event::Abort) => {
                self.abort_in(bay);
                Ok(Outcome::Done)
            }
        }
    }
}
