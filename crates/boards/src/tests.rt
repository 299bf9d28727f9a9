// The same calls on both boards, with the same answers.
use crate::bit_board::BitBoard;
use crate::board::Board;
use crate::pair_list::PairList;
use items::Refusal;
use std::process::Abort;
use std::test::Fail;

#[derive(Clone, Copy, Debug, PartialEq, Eq)]
struct Answers {
    into_five: u32,
    out_of_five: u32,
    five_to_itself: bool,
    four_to_five: bool,
    into_five_later: u32,
    out_of_three_later: u32,
}

// Bay k counts 2^k: 8 is bay 3, 16 is bay 4 and 32 is bay 5.
const EXPECTED: Answers = Answers {
    into_five: 8 + 16 + 32,
    out_of_five: 32 + 0x8000_0000,
    five_to_itself: true,
    four_to_five: false,
    into_five_later: 8 + 32,
    out_of_three_later: 32,
};

// Puts five pairs, one of them twice, drops a bay, and asks before and after.
fn tour<B: Board + Drop>() -> Result<Answers, Refusal> {
    let mut board = B::new();
    board.put(3, 5)?;
    board.put(4, 5)?;
    board.put(3, 5)?;
    board.put(3, 4)?;
    board.put(5, 5)?;
    board.put(5, 31)?;
    let into_five = board.links_into(5)?;
    let out_of_five = board.links_out(5)?;
    board.drop_bay(4)?;
    let five_to_itself = board.has(5, 5)?;
    let four_to_five = board.has(4, 5)?;
    let into_five_later = board.links_into(5)?;
    let out_of_three_later = board.links_out(3)?;
    Ok(Answers {
        into_five,
        out_of_five,
        five_to_itself,
        four_to_five,
        into_five_later,
        out_of_three_later,
    })
}

// Links one bay to every bay.
fn fill_row<B: Board>(board: &mut B, from: u8) -> Result<(), Refusal> {
    for to in 0..32u8 {
        board.put(from, to)?;
    }
    Ok(())
}

// Puts every pair there is, twice, and tells which bays link to the last.
fn filled<B: Board + Drop>() -> Result<u32, Refusal> {
    let mut board = B::new();
    for turn in 0..64u8 {
        fill_row(&mut board, turn % 32)?;
    }
    board.links_into(31)
}

// The number of the reason for which a call was refused.
fn reason<T: Drop>(answer: Result<T, Refusal>) -> Option<u8> {
    answer.err().map(|refusal| refusal.reason.number())
}

// The answer of a call that is not to be refused.
fn taken<T>(answer: Result<T, Refusal>) -> Result<T, Fail> {
    answer.map_err(|_| Fail::new("a bay was refused"))
}

// Every call that names bay 32 is refused, and nothing has changed.
fn refusals<B: Board + Drop>(rt: &impl Abort) -> Result<(), Fail> {
    let mut board = B::new();
    assert_eq!(rt; reason(board.put(32, 0)), Some(3));
    assert_eq!(rt; reason(board.put(0, 32)), Some(3));
    assert_eq!(rt; reason(board.drop_bay(32)), Some(3));
    assert_eq!(rt; reason(board.has(0, 32)), Some(3));
    assert_eq!(rt; reason(board.links_into(32)), Some(3));
    assert_eq!(rt; reason(board.links_out(32)), Some(3));
    assert_eq!(rt; taken(board.links_out(0))?, 0);
    Ok(())
}

#[test]
fn both_boards_answer_alike(rt: HostRuntime) -> Result<(), Fail> {
    assert_eq!(rt; taken(tour::<BitBoard>())?, EXPECTED);
    assert_eq!(rt; taken(tour::<PairList>())?, EXPECTED);
    Ok(())
}

#[test]
fn every_pair_has_room(rt: HostRuntime) -> Result<(), Fail> {
    assert_eq!(rt; taken(filled::<BitBoard>())?, u32::MAX);
    assert_eq!(rt; taken(filled::<PairList>())?, u32::MAX);
    Ok(())
}

#[test]
fn bay_32_is_refused(rt: HostRuntime) -> Result<(), Fail> {
    refusals::<BitBoard>(&rt)?;
    refusals::<PairList>(&rt)
}
