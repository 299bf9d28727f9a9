// The calls made on a watch, counted as they are answered.
ghost use Rattle.std.specs.Prelude.{◌≡◌, ℕ, ◌^◌, ◌<◌, ◌∷◌};
ghost use Rattle.items.specs.Entries.{event_meant};
ghost use Rattle.watch.specs.Histories.{History};
ghost use Rattle.watch.specs.Watches.{call_of};
ghost use Rattle.replay.specs.Summaries.{tally_of};

use items::{Event, Kind};
use watch::{Answer, Outcome};

// How many calls there were, and how many of them committed and aborted.
#[derive(Clone, Copy, Default)]
pub struct Tally {
    pub entries: u64,
    pub commits: u64,
    pub aborts: u64,
}

impl Tally {
    // One call more, by its event and its answer.
    pub(crate) fn with<K: Kind>(self, event: &Event<K>, answer: &Answer) -> Tally
        requires { (self.entries < 2 ^ 32) × ((self.commits < 2 ^ 32) × (self.aborts < 2 ^ 32)) }
        ensures { (h : History) (bay : ℕ) → self ≡ tally_of h → result ≡ tally_of ((call_of bay (event_meant K.Kind.fields event.now), answer.now) ∷ h) }
    {
        let entries = self.entries + 1;
        match (event, answer) {
            (Event::Commit, Ok(Outcome::Committed(_))) => Tally {
                entries,
                commits: self.commits + 1,
                ..self
            },
            (Event::Abort, Ok(Outcome::Done)) => Tally {
                entries,
                aborts: self.aborts + 1,
                ..self
            },
            _ => Tally { entries, ..self },
        }
    }
}
