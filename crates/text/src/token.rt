// The words and numbers of a line, which borrow its parts.
ghost use Rattle.std.specs.Prelude.{◌≡◌, ◌≤◌, true, length};
ghost use Rattle.std.specs.Option.{option_map};
ghost use Rattle.std.specs.Str.{all_ascii_digits};
ghost use Rattle.text.specs.Tokens.{part_meant};
ghost use Rattle.text.specs.Words.{before, behind, is_number, read_on, part_of, rest_of};

// Whether a word is a number: one to seven digits, and no leading zero but 0 itself.
fn is_number(word: &[u8]) -> bool
    ensures { result ≡ is_number word.now }
{
    let length = word.len();
    if length < 1 || length > 7 {
        return false;
    }
    if length > 1 && word[0] == b'0' {
        return false;
    }
    word.iter().all(|b| b.is_ascii_digit())
}

// A part of a line: a word that is no number, a number, or the line's end.
#[derive(Clone, Copy)]
pub enum Token<'a> {
    Word(&'a [u8]),
    Number(&'a [u8]),
    End,
}

// The number that one to seven digits write.
pub(crate) fn number_value(digits: &[u8]) -> u64
    requires digits { all_ascii_digits digits.now ≡ true }
    requires few { length digits.now ≤ 7 }
    ensures { result ≡ read_on 0 digits.now }
{
    let mut value = 0;
    // By a loop, which knows how many digits came: the closure of a fold does not know that its value is still small.
    for b in digits {
        value = 10 * value + u64::from(*b - b'0');
    }
    value
}

// What stands before the first byte of this value, and what stands behind it, if there is one.
pub(crate) fn split_mark<'a>(text: &'a [u8], mark: u8) -> (&'a [u8], Option<&'a [u8]>)
    ensures before { result.0.now ≡ before mark text.now }
    ensures behind { option_map (λ x. x.now) result.1 ≡ behind mark text.now }
{
    match text.iter().position(|b| *b == mark) {
        Some(place) => (&text[..place], Some(&text[place + 1..])),
        None => (text, None),
    }
}

// The first part of what is left of a line, and what is left behind it.
pub(crate) fn next_token<'a>(text: Option<&'a [u8]>) -> (Token<'a>, Option<&'a [u8]>)
    ensures part { part_meant result.0 ≡ part_of (option_map (λ x. x.now) text.entry) }
    ensures rest { option_map (λ x. x.now) result.1 ≡ rest_of (option_map (λ x. x.now) text.entry) }
{
    let Some(text) = text else {
        return (Token::End, None);
    };
    let (word, rest) = split_mark(text, b' ');
    if is_number(word) {
        (Token::Number(word), rest)
    } else {
        (Token::Word(word), rest)
    }
}
