// The kinds of records. A number past them is refused as 11.
ghost use Rattle.std.specs.Prelude.{◌≡◌};
ghost use Rattle.paper.specs.Kinds.{kind_number, Decodes};

use crate::Reason;

// A kind, by the number that stands in a record.
#[derive(Clone, Copy)]
pub enum Kind {
    Open = 1,
    Rule = 2,
    Wish = 3,
    Derive = 4,
    Core = 5,
    Judge = 6,
}

impl Kind {
    pub fn number(self) -> u32
        ensures { result ≡ kind_number self }
    {
        self as u32
    }
}

impl TryFrom<u32> for Kind {
    type Error = Reason;

    ghost try_from_gives = { Decodes };

    fn try_from(kind: u32) -> Result<Kind, Reason> {
        match kind {
            1 => Ok(Kind::Open),
            2 => Ok(Kind::Rule),
            3 => Ok(Kind::Wish),
            4 => Ok(Kind::Derive),
            5 => Ok(Kind::Core),
            6 => Ok(Kind::Judge),
            _ => Err(Reason::UnknownKind),
        }
    }
}
