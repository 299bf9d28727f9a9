// Many links put at once on any board, which takes one at a time.
ghost use Rattle.std.specs.Prelude.{◌≡◌, ◌<◌};
ghost use Rattle.boards.specs.Boards.{SameLinks};
ghost use Rattle.watch.specs.Steps.{with_links_to, with_links_between};

use boards::{Board, has_bay};

// Puts a link to a bay from each bay of a set.
pub(crate) fn link_to<B: Board>(board: &mut B, froms: u32, to: u8)
    requires { to < 32 }
    ensures { SameLinks (B.Board.linked board.new) (with_links_to to froms (B.Board.linked board.old)) }
{
    // A link at a time: each turn changes the board.
    for from in 0..32u8 {
        if has_bay(froms, from) {
            board.put(from, to).unwrap();
        }
    }
}

// Puts a link from each bay of one set to each bay of another.
pub(crate) fn link_between<B: Board>(board: &mut B, froms: u32, tos: u32)
    ensures { SameLinks (B.Board.linked board.new) (with_links_between froms tos (B.Board.linked board.old)) }
{
    // A link at a time: each turn changes the board.
    for to in 0..32u8 {
        if has_bay(tos, to) {
            link_to(board, froms, to);
        }
    }
}
