// What a call answers.
ghost use Rattle.std.specs.Prelude.{◌≡◌};
ghost use Rattle.watch.specs.Answers.{verdict_left};

use items::Refusal;

// The verdict on the committed transactions: Clean until a commit crosses.
#[derive(Clone, Copy, Debug, PartialEq)]
pub enum Verdict {
    Clean,
    Crossed,
}

// A begin, an access and an abort are done, and a commit has a verdict.
#[derive(Clone, Copy, Debug, PartialEq)]
pub enum Outcome {
    Done,
    Committed(Verdict),
}

// The outcome of a call, or its refusal.
pub type Answer = Result<Outcome, Refusal>;

impl Outcome {
    // The verdict that a call leaves: that on its commit, and Clean where there is none.
    pub fn verdict(self) -> Verdict
        ensures { result ≡ verdict_left self }
    {
        match self {
            Outcome::Done => Verdict::Clean,
            Outcome::Committed(verdict) => verdict,
        }
    }
}
