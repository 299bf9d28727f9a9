// Sets of bays as 32-bit numbers in which bay k counts 2^k; bits are handled here and nowhere else.
ghost use Rattle.std.specs.Prelude.{◌≡◌, ℕ};
ghost use Rattle.boards.specs.BaySets.{bit, set_number, is_bay, is_this, in_either, with_bay, without_bay};
ghost use Rattle.boards.specs.declared.bay.Bay.{Bay};

use crate::bay::Bay;

// How many bays there are.
pub(crate) const BAYS: usize = 32;

// Whether a number is a bay's.
pub(crate) fn is_bay(bay: u8) -> bool
    ensures { result ≡ is_bay bay }
{
    (bay as usize) < BAYS
}

// The set of one bay, or of none where the number is no bay.
fn only_bay(bay: u8) -> u32
    ensures { (k : ℕ) → bit result k ≡ is_this bay k }
{
    if is_bay(bay) { 1 << bay } else { 0 }
}

// Whether a bay is in the set; a number that is no bay is in none.
pub fn has_bay(bays: u32, bay: u8) -> bool
    ensures { result ≡ bit bays bay }
{
    is_bay(bay) && (bays >> bay) % 2 == 1
}

// The bays of both sets.
pub fn with_bays(bays: u32, more: u32) -> u32
    ensures members { (k : ℕ) → bit result k ≡ in_either bays more k }
    ensures number { result ≡ set_number (in_either bays more) 32 }
{
    bays | more
}

// The set with one more bay; a number that is no bay adds none.
pub fn with_bay(bays: u32, bay: u8) -> u32
    ensures members { (k : ℕ) → bit result k ≡ with_bay bays bay k }
    ensures number { result ≡ set_number (with_bay bays bay) 32 }
{
    with_bays(bays, only_bay(bay))
}

// The set without one bay.
pub fn without_bay(bays: u32, bay: u8) -> u32
    ensures members { (k : ℕ) → bit result k ≡ without_bay bays bay k }
    ensures number { result ≡ set_number (without_bay bays bay) 32 }
{
    bays & !only_bay(bay)
}

// The bays that pass a test.
pub(crate) fn bays_that<F: Fn(Bay) -> bool>(test: F) -> u32
    requires { F.IsAlwaysCallable test }
    ensures { (bay : Bay) → F.post test bay (bit result bay.number) }
{
    let mut bays = 0;
    // By a for: in a chain the test would be a closure within a closure.
    for number in 0..BAYS as u8 {
        if test(Bay { number }) {
            bays = with_bay(bays, number);
        }
    }
    bays
}
