// The kinds of a deck's records.
ghost use Rattle.std.specs.Prelude.{◌≡◌};
ghost use Rattle.deck.specs.Kind.{kind_number, Named};

// The discriminants are the bytes of the file.
#[derive(Clone, Copy, PartialEq, Eq)]
pub(crate) enum Kind {
    Head = 0,
    Transcript = 1,
    Bounds = 2,
    Exon = 3,
    Segment = 4,
    Selenocysteine = 5,
}

impl From<Kind> for u8 {
    ghost from_gives = { λ kind n. n ≡ kind_number kind };

    fn from(kind: Kind) -> u8 {
        kind as u8
    }
}

// A byte that names no kind.
#[derive(Clone, Copy)]
pub(crate) struct UnknownKind;

// By hand: no derive writes TryFrom.
impl TryFrom<u8> for Kind {
    type Error = UnknownKind;

    ghost try_from_gives = { Named };

    fn try_from(byte: u8) -> Result<Kind, UnknownKind> {
        match byte {
            0 => Ok(Kind::Head),
            1 => Ok(Kind::Transcript),
            2 => Ok(Kind::Bounds),
            3 => Ok(Kind::Exon),
            4 => Ok(Kind::Segment),
            5 => Ok(Kind::Selenocysteine),
            _ => Err(UnknownKind),
        }
    }
}
