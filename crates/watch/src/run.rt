// A whole run: opens a watch and makes a list of calls.
ghost use Rattle.std.specs.Prelude.{◌≡◌, ℕ, ◌≤◌, Bool, List};
ghost use Rattle.items.specs.Modes.{conflicting as tableConflicts};
ghost use Rattle.items.specs.declared.mode.Mode.{Mode};
ghost use Rattle.marks.specs.Marks.{MarkMeant};
ghost use Rattle.watch.specs.Histories.{History};
ghost use Rattle.watch.specs.States.{State, opened_state};
ghost use Rattle.watch.specs.Runs.{Run as RunTo, calls_of};
ghost use Rattle.watch.specs.Ran.{Ran};
ghost use Rattle.watch.specs.declared.run.RunError.TheVariants.{Unopened, OutOfMemory};

use crate::answer::Answer;
use crate::watch::Watch;
use boards::Board;
use items::{Entry, Kind};
use marks::{Mark, Unopened};
use std::alloc::{AllocFailed, Global};

// The watch after a run, and the answers to the calls in their order.
#[derive(Drop)]
pub struct Run<'a, I, B> {
    pub watch: Watch<'a, I, B>,
    pub answers: Vec<Answer>,
}

// Why there was no run: the watch could not be opened, or there was no memory for the answers.
#[derive(Drop)]
pub enum RunError<'a, I> {
    Unopened(Unopened<'a, I>),
    OutOfMemory,
}

impl<'a, I> From<Unopened<'a, I>> for RunError<'a, I> {
    ghost from_gives = { λ x y. y ≡ Unopened x };

    fn from(unopened: Unopened<'a, I>) -> RunError<'a, I> {
        RunError::Unopened(unopened)
    }
}

impl<T: Drop, I> From<AllocFailed<T>> for RunError<'_, I> {
    ghost from_gives = { λ _ y. y ≡ OutOfMemory };

    fn from(_failed: AllocFailed<T>) -> Self {
        RunError::OutOfMemory
    }
}

// Opens a watch and makes these calls one after the other.
pub fn run_calls<'a, I: Kind + Copy, B: Board + Drop>(
    heap: Global,
    bays: u8,
    marks: &'a mut [Mark<I>],
    calls: &[Entry<I>],
) -> Result<Run<'a, I, B>, RunError<'a, I>>
    ensures { Ran I.Kind.overlapping tableConflicts B.Board.linked I.Kind.fields bays marks.old calls.now result }
{
    let mut watch = Watch::open(bays, marks)?;
    let mut answers = Vec::new(heap);
    for call in calls {
        let answer = watch.call(call.bay, call.event);
        answers.push(answer)?;
    }
    Ok(Run { watch, answers })
}

// The calls made on a watch since its opening settle their answers, whichever vacant marks were taken, over every mutual
// overlap of items and every mutual conflict of modes. The function does nothing: its contract is the theorem.
pub fn the_calls_of_a_run_settle_its_answers()
    ensures { (overlapping : List ℕ → List ℕ → Bool) (conflicting : Mode → Mode → Bool) →
        ((fs gs : List ℕ) → overlapping fs gs ≡ overlapping gs fs) → ((m n : Mode) → conflicting m n ≡ conflicting n m) →
        (bays : ℕ) (marks : List MarkMeant) → bays ≤ 32 → (h k : History) (s t : State) →
        RunTo overlapping conflicting (opened_state bays marks) h s → RunTo overlapping conflicting (opened_state bays marks) k t →
        calls_of h ≡ calls_of k → h ≡ k }
{}
