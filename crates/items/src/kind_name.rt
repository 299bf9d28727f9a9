// The three kinds of items that a log or a list can hold.
ghost use Rattle.std.specs.Prelude.{◌≡◌};
ghost use Rattle.items.specs.KindNames.{code_of, kind_of};

use crate::refusal::Reason;

#[derive(Clone, Copy, Debug, PartialEq)]
pub enum KindName {
    Article = 1,
    Span = 2,
    FieldSet = 3,
}

impl KindName {
    // The code that stands for the kind in a packed log.
    pub fn code(self) -> u8
        ensures { result ≡ code_of self }
    {
        self as u8
    }
}

impl TryFrom<u8> for KindName {
    type Error = Reason;

    ghost try_from_gives = { λ code r. r ≡ kind_of code };

    // The kind of a code, 1 to 3.
    fn try_from(code: u8) -> Result<KindName, Reason> {
        match code {
            1 => Ok(KindName::Article),
            2 => Ok(KindName::Span),
            3 => Ok(KindName::FieldSet),
            _ => Err(Reason::OtherKind),
        }
    }
}
