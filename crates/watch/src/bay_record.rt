// What the watch records of one bay.
ghost use Rattle.std.specs.Prelude.{◌≡◌};
ghost use Rattle.watch.specs.declared.answer.Verdict.TheVariants.{Clean};
ghost use Rattle.watch.specs.Histories.{Begins, Commits, Aborts};
ghost use Rattle.watch.specs.Steps.{record_after};

#[derive(Clone, Copy, Debug, Default, PartialEq)]
pub enum BayState {
    #[default]
    Idle,
    Open,
}

// Whether a transaction is open in the bay, and how many were committed and aborted there, up to 4,294,967,295.
#[derive(Clone, Copy, Default)]
pub struct BayRecord {
    pub state: BayState,
    pub commits: u32,
    pub aborts: u32,
}

impl BayRecord {
    // A transaction begins in the bay.
    pub(crate) fn begin(&mut self)
        ensures { self.new ≡ record_after Begins self.old }
    {
        self.state = BayState::Open;
    }

    // The transaction in the bay is committed, with whichever verdict.
    pub(crate) fn commit(&mut self)
        ensures { self.new ≡ record_after (Commits Clean) self.old }
    {
        self.state = BayState::Idle;
        self.commits = self.commits.saturating_add(1);
    }

    // The transaction in the bay is aborted. A commit counts in the other
    // number: one function for both would take the number to count in, for two lines.
    pub(crate) fn abort(&mut self)
        ensures { self.new ≡ record_after Aborts self.old }
    {
        self.state = BayState::Idle;
        self.aborts = self.aborts.saturating_add(1);
    }
}
