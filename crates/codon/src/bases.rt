// Base numbers and complements.
ghost use Rattle.std.specs.Prelude.{◌≡◌};
ghost use Rattle.codon.specs.Bases.{is_base, two_bits, base_number, complement_of};

// Whether the byte is A, C, G or T.
pub fn is_base(b: u8) -> bool
    ensures { result ≡ is_base b }
{
    matches!(b, b'A' | b'C' | b'G' | b'T')
}

// The byte halved, modulo 4, and where that is 2 or 3 taken from 5: 0, 1, 2 and 3 of A, C, G and T.
fn two_bits(b: u8) -> u8
    ensures { result ≡ two_bits b }
{
    let n = b / 2 % 4;
    if n < 2 { n } else { 5 - n }
}

// The number of a base: A 0, C 1, G 2, T 3.
#[tactic(auto, unfolding(crate::specs::Bases::base_number))]
pub fn base_number(b: u8) -> Option<u8>
    ensures { result ≡ base_number b }
{
    is_base(b).then_some(two_bits(b))
}

// A and T, C and G are exchanged; every other byte stays. Tests one after the other become conditional moves, a `match` a jump that random
// bases make hard to predict.
#[tactic(auto, unfolding(crate::specs::Bases::complement_of))]
pub fn complement(b: u8) -> u8
    ensures { result ≡ complement_of b }
{
    let r = if b == b'G' { b'C' } else { b };
    let r = if b == b'C' { b'G' } else { r };
    let r = if b == b'T' { b'A' } else { r };
    if b == b'A' { b'T' } else { r }
}
