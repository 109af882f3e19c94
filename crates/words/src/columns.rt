// The columns of a call's answer as numbers.
ghost use Rattle.std.specs.Prelude.{◌+◌, ◌*◌, ◌≡◌};
ghost use Rattle.consequence.specs.Answer.{cdna_count};
ghost use Rattle.consequence.specs.Numbers.{number_of, total_of, count_of, codon_word};
ghost use Rattle.consequence.specs.Numbers.{reference_word, altered_word, changed_place, letters_word};

use codon::{AminoAcids, Codon, Codons};
use consequence::{Numbered, cdna_count};
use locate::CdnaPosition;

pub(crate) fn number_of(n: Option<Numbered>) -> u32
    ensures { result ≡ number_of n }
{
    n.map_or(0, |n| n.number as u32)
}

pub(crate) fn total_of(n: Option<Numbered>) -> u32
    ensures { result ≡ total_of n }
{
    n.map_or(0, |n| n.total as u32)
}

pub(crate) fn cdna_of(n: Option<CdnaPosition>) -> u32
    ensures { result ≡ count_of (cdna_count n) }
{
    count_of(cdna_count(n))
}

pub(crate) fn count_of(n: Option<u32>) -> u32
    ensures { result ≡ count_of n }
{
    n.unwrap_or(0)
}

// Four bytes as a number, the lowest first.
fn packed(a: u8, b: u8, c: u8, d: u8) -> u32
    ensures { result ≡ a + 256 * b + 65536 * c + 16777216 * d }
{
    u32::from_le_bytes([a, b, c, d])
}

pub(crate) fn codon_word(c: Codon) -> u32
    ensures { result ≡ codon_word c }
{
    packed(c.len, c.first, c.second, c.third)
}

pub(crate) fn reference_word(codons: Option<Codons>) -> u32
    ensures { result ≡ reference_word codons }
{
    codons.map_or(0, |c| codon_word(c.reference))
}

pub(crate) fn altered_word(codons: Option<Codons>) -> u32
    ensures { result ≡ altered_word codons }
{
    codons.map_or(0, |c| codon_word(c.altered))
}

pub(crate) fn changed_place(codons: Option<Codons>) -> u32
    ensures { result ≡ changed_place codons }
{
    codons.map_or(0, |c| c.place as u32)
}

pub(crate) fn letters_word(letters: Option<AminoAcids>) -> u32
    ensures { result ≡ letters_word letters }
{
    match letters {
        None => 0,
        Some(AminoAcids::One(x)) => packed(1, x, 0, 0),
        Some(AminoAcids::Change(x, y)) => packed(2, x, y, 0),
    }
}
