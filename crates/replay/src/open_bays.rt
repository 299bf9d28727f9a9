// How many bays of a watch are open.
ghost use Rattle.std.specs.Prelude.{◌≡◌};
ghost use Rattle.items.specs.Modes.{conflicting};
ghost use Rattle.watch.specs.Histories.{History, is_open};
ghost use Rattle.watch.specs.Accounts.{Account};
ghost use Rattle.watch.specs.Watches.{state_of};
ghost use Rattle.replay.specs.Summaries.{open_below};

use boards::Board;
use items::Kind;
use watch::{BayState, Watch};

// Whether a bay is open.
fn is_open<K: Kind + Copy, B: Board>(watch: &Watch<'_, K, B>, bay: u8) -> bool
    ensures { (h : History) → Account K.Kind.overlapping conflicting h (state_of B.Board.linked K.Kind.fields watch.now) → result ≡ is_open h bay }
{
    watch
        .bay(bay)
        .is_ok_and(|record| record.state == BayState::Open)
}

// How many of the bays below a number are open.
pub(crate) fn count_open<K: Kind + Copy, B: Board>(watch: &Watch<'_, K, B>, bays: u8) -> u64
    ensures { (h : History) → Account K.Kind.overlapping conflicting h (state_of B.Board.linked K.Kind.fields watch.now) → result ≡ open_below bays h }
{
    (0..bays).filter(|bay| is_open(watch, *bay)).count() as u64
}
