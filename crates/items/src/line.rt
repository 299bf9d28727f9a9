// Lines of text written into lent memory: a word, then numbers in decimal, parted by single spaces.
ghost use Rattle.std.specs.Prelude.{◌≡◌, ℕ, ◌+◌, ◌≤◌, List, [], ◌∷◌, ◌++◌, length, Some, IfOk, decimal};
ghost use Rattle.items.specs.Lines.{spaced, ending, line, pasted, fitted, pasted_if};

use itoa::Buffer;
use std::alloc::{AllocError, Global};
use std::fmt::Display;

// How many digits a number has.
fn digits(n: u64) -> usize
    ensures value { result ≡ length (decimal n) }
    ensures few { result ≤ 20 }
{
    Buffer::new().format(n).len()
}

// The place after so many bytes, where they fit.
fn advance(room: usize, at: usize, n: usize) -> Option<usize>
    ensures { result ≡ fitted room at n }
{
    if at > room || n > room - at {
        return None;
    }
    Some(at + n)
}

// The place after a space and a number, where they fit.
fn spaced_end(room: usize, at: usize, n: u64) -> Option<usize>
    ensures { result ≡ fitted room at (length (spaced n)) }
{
    advance(room, at, 1 + digits(n))
}

// Writes bytes.
fn put_bytes(out: &mut [u8], at: usize, bytes: &[u8])
    requires { at + length bytes.now ≤ length out.old }
    ensures { out.new ≡ pasted out.old at bytes.now }
{
    out[at..at + bytes.len()].copy_from_slice(bytes);
}

// Writes a space and a number, and answers the place after them.
#[inline(always)]
fn put_spaced(out: &mut [u8], at: usize, n: u64) -> usize
    requires { at + length (spaced n) ≤ length out.old }
    ensures place { result ≡ at + length (spaced n) }
    ensures memory { out.new ≡ pasted out.old at (spaced n) }
{
    let mut buffer = Buffer::new();
    let digits = buffer.format(n).as_bytes();
    out[at] = b' ';
    put_bytes(out, at + 1, digits);
    at + 1 + digits.len()
}

// Writes numbers, each behind a space, and a newline.
fn put_ending(out: &mut [u8], at: usize, numbers: &[u64])
    requires { at + length (ending numbers.now) ≤ length out.old }
    ensures { out.new ≡ pasted out.old at (ending numbers.now) }
{
    let mut place = at;
    for n in numbers {
        place = put_spaced(out, place, *n);
    }
    out[place] = b'\n';
}

// The place after numbers, each behind a space, and a newline, where they fit into the room.
fn ending_end(room: usize, at: usize, numbers: &[u64]) -> Option<usize>
    ensures { result ≡ fitted room at (length (ending numbers.now)) }
{
    let mut end = at;
    for n in numbers {
        end = spaced_end(room, end, *n)?;
    }
    advance(room, end, 1)
}

// The place after such a line, where it fits into the room.
#[inline(always)]
pub fn line_end(room: usize, at: usize, word: &[u8], first: u64, rest: &[u64]) -> Option<usize>
    ensures { result ≡ fitted room at (length (line word.now (first ∷ rest.now))) }
{
    let word_end = advance(room, at, word.len())?;
    let first_end = spaced_end(room, word_end, first)?;
    ending_end(room, first_end, rest)
}

// Writes a line where it fits, and answers the place after it.
pub fn write_line(out: &mut [u8], at: usize, word: &[u8], first: u64, rest: &[u64]) -> Option<usize>
    ensures place { result ≡ fitted (length out.old) at (length (line word.now (first ∷ rest.now))) }
    ensures memory { out.new ≡ pasted_if result out.old at (line word.now (first ∷ rest.now)) }
{
    let end = line_end(out.len(), at, word, first, rest)?;
    put_bytes(out, at, word);
    let place = put_spaced(out, at + word.len(), first);
    put_ending(out, place, rest);
    Some(end)
}

// Makes a line in memory of its own.
pub fn line_of(heap: Global, word: &[u8], first: u64, rest: &[u64]) -> Result<Vec<u8>, AllocError>
    ensures { IfOk result (λ v. v.items ≡ line word.now (first ∷ rest.now)) }
{
    // No memory has room for a line that is longer than a number says.
    let length = line_end(usize::MAX, 0, word, first, rest).unwrap_or(usize::MAX);
    let mut made = Vec::from_elem(heap, 0u8, length)?;
    let _ = write_line(made.as_mut_slice(), 0, word, first, rest);
    Ok(made)
}

// Makes the line of what is displayed, in memory of its own.
pub fn displayed_line<T: Display>(heap: Global, told: &T) -> Result<Vec<u8>, AllocError>
    ensures { (text : List ℕ) → T.output told.now ≡ Some text → IfOk result (λ v. v.items ≡ text ++ 10 ∷ []) }
{
    Ok(format!(in heap; "{told}\n")?.into_bytes())
}
