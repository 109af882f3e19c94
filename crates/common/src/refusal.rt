// Why a deck, a transcript, a question or a line is turned away.
ghost use Rattle.std.specs.Prelude.{◌≡◌};
ghost use Rattle.common.specs.Refusal.{number};

// The discriminants are the numbers that callers outside are given. 20 is retired.
#[derive(Clone, Copy, PartialEq, Eq)]
pub enum Refusal {
    Counts = 1,
    Coordinates = 2,
    ExonOrder = 3,
    OuterBounds = 4,
    CdsBounds = 5,
    Phase = 6,
    Pad = 7,
    MissingExon = 8,
    RepeatedExon = 9,
    FirstCodingBase = 10,
    LastCodingBase = 11,
    Segments = 12,
    Selenocysteine = 13,
    Chromosome = 14,
    Interval = 15,
    AlteredBase = 16,
    OutsideWindow = 17,
    ReferenceBase = 18,
    Distal = 19,
    CodonOutsideWindow = 21,
    DeckLength = 22,
    Record = 23,
    Link = 24,
    NoTranscript = 25,
    CallLine = 26,
    FileLength = 27,
    LineLength = 28,
}

impl From<Refusal> for u8 {
    ghost from_gives = { λ refusal n. n ≡ number refusal };

    fn from(refusal: Refusal) -> u8 {
        refusal as u8
    }
}
