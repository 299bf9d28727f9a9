// What can be asked of a watch, after a crossing too. Asking changes nothing.
ghost use Rattle.std.specs.Prelude.{◌≡◌};
ghost use Rattle.marks.specs.Holding.{held_count};
ghost use Rattle.watch.specs.Questions.{bay_told, link_told, own_told, inherited_told};
ghost use Rattle.watch.specs.Watches.{state_of};

use crate::answer::Verdict;
use crate::bay_record::BayRecord;
use crate::watch::{Watch, refusal};
use boards::Board;
use items::{Kind, Mode, Reason, Refusal};

impl<I: Kind + Copy, B: Board> Watch<'_, I, B> {
    // The verdict so far: Clean until a commit crosses.
    pub fn verdict(&self) -> Verdict
        ensures { result ≡ (state_of B.Board.linked I.Kind.fields self.now).verdict }
    {
        self.verdict
    }

    // Whether a transaction is open in a bay, and how many were committed and aborted there.
    pub fn bay(&self, bay: u8) -> Result<BayRecord, Refusal>
        ensures { result ≡ bay_told (state_of B.Board.linked I.Kind.fields self.now) bay }
    {
        self.bays.get(bay).ok_or(refusal(Reason::NoSuchBay))
    }

    // Whether a bay links to a bay.
    pub fn links(&self, from: u8, to: u8) -> Result<bool, Refusal>
        ensures { result ≡ link_told (state_of B.Board.linked I.Kind.fields self.now) from to }
    {
        self.bay(from)?;
        self.bay(to)?;
        self.board.has(from, to)
    }

    // Whether a bay holds an item and mode as own.
    pub fn holds_own(&self, bay: u8, item: &I, mode: Mode) -> Result<bool, Refusal>
        ensures { result ≡ own_told (state_of B.Board.linked I.Kind.fields self.now) bay (I.Kind.fields item.now) mode }
    {
        self.bay(bay)?;
        Ok(self.marks.holds_own(bay, item, mode))
    }

    // Whether a bay holds an item and mode as inherited; a mark's two sets of holders are asked apart.
    pub fn holds_inherited(&self, bay: u8, item: &I, mode: Mode) -> Result<bool, Refusal>
        ensures { result ≡ inherited_told (state_of B.Board.linked I.Kind.fields self.now) bay (I.Kind.fields item.now) mode }
    {
        self.bay(bay)?;
        Ok(self.marks.holds_inherited(bay, item, mode))
    }

    // How many marks are held.
    pub fn held_marks(&self) -> usize
        ensures { result ≡ held_count (state_of B.Board.linked I.Kind.fields self.now).marks }
    {
        self.marks.held_count()
    }
}
