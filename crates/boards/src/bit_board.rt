// A link board as a square bit matrix: 32 words, and in the word of each bay the set of bays that it links to.
ghost use Rattle.std.specs.Prelude.{◌≡◌};
ghost use Rattle.boards.specs.Boards.{SameLinks, without_into};
ghost use Rattle.boards.specs.Matrices.{cells, matrix_links};
ghost use Rattle.std.proofs.Common.{rules};

use crate::bay::Bay;
use crate::bay_set::{BAYS, bays_that, has_bay, with_bay, without_bay};
use crate::board::Board;
use crate::pair::Pair;
use items::Refusal;

// The words are an array by value, which is the form that this project gives to a bit matrix.
#[derive(Drop)]
pub struct BitBoard {
    rows: [u32; BAYS],
}

// Takes a bay out of the set in each word.
fn clear_column(rows: &mut [u32], bay: Bay)
    ensures { SameLinks (cells rows.new) (without_into (cells rows.old) bay.number) }
{
    for row in rows.iter_mut() {
        *row = without_bay(*row, bay.number);
    }
}

impl Board for BitBoard {
    ghost linked = { λ s. matrix_links s.rows };

    ghost only_bays = { Prim.search rules };

    fn new() -> BitBoard {
        BitBoard { rows: [0; BAYS] }
    }

    fn put(&mut self, from: u8, to: u8) -> Result<(), Refusal> {
        let pair = Pair::new(from, to)?;
        let row = pair.from.number as usize;
        self.rows[row] = with_bay(self.rows[row], pair.to.number);
        Ok(())
    }

    fn drop_bay(&mut self, bay: u8) -> Result<(), Refusal> {
        let bay = Bay::try_from(bay)?;
        clear_column(&mut self.rows, bay);
        self.rows[bay.number as usize] = 0;
        Ok(())
    }

    fn has(&self, from: u8, to: u8) -> Result<bool, Refusal> {
        let pair = Pair::new(from, to)?;
        Ok(has_bay(self.rows[pair.from.number as usize], pair.to.number))
    }

    fn links_into(&self, bay: u8) -> Result<u32, Refusal> {
        let bay = Bay::try_from(bay)?;
        Ok(bays_that(|from| has_bay(self.rows[from.number as usize], bay.number)))
    }

    fn links_out(&self, bay: u8) -> Result<u32, Refusal> {
        let bay = Bay::try_from(bay)?;
        Ok(self.rows[bay.number as usize])
    }
}
