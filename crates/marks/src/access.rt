// An access: an item, and the mode in which it is accessed.
ghost use Rattle.std.specs.Prelude.{◌≡◌, ◌&&◌};
ghost use Rattle.items.specs.Modes.{conflicting};

use items::{Kind, Mode};

#[derive(Clone, Copy)]
pub(crate) struct Access<I> {
    pub(crate) item: I,
    pub(crate) mode: Mode,
}

impl<I: Kind + Copy> Access<I> {
    // Whether the access overlaps an item and conflicts with a mode.
    pub(crate) fn conflicts(&self, item: &I, mode: Mode) -> bool
        ensures { result ≡ (I.Kind.overlapping (I.Kind.fields self.now.item) (I.Kind.fields item.now) && conflicting self.now.mode mode) }
    {
        self.item.overlaps(item) && self.mode.conflicts(mode)
    }
}
