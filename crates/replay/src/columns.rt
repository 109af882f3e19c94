// The columns of an answer, compared with those of a list.
use crate::numbers::{byte_at, from, u16_at, u32_at};
use crate::places::same_place;
use codon::{AminoAcids, Codon, Codons};
use consequence::{ConsequenceResult, Numbered, cdna_count};

// Exon or intron k of n; 0 of 0 where absent.
fn same_numbered(b: &[u8], n: Option<Numbered>) -> bool {
    match n {
        None => u32_at(b, 0) == 0,
        Some(n) => u64::from(n.number) == u16_at(b, 0) && u64::from(n.total) == u16_at(b, 2),
    }
}

// A position; 0 where absent.
fn same_counted(b: &[u8], n: Option<u32>) -> bool {
    u32_at(b, 0) == n.map_or(0, u64::from)
}

// A base of a codon as it is shown: in lower case unless it is the changed one.
fn shown(x: u8, changed: bool) -> u64 {
    if changed {
        u64::from(x)
    } else {
        u64::from(x.to_ascii_lowercase())
    }
}

// The codon's bases.
fn same_codon(b: &[u8], c: Codon, place: u8) -> bool {
    shown(c.first, place == 0) == byte_at(b, 0)
        && (c.len < 2 || shown(c.second, place == 1) == byte_at(b, 1))
        && (c.len < 3 || shown(c.third, place == 2) == byte_at(b, 2))
}

// Both codons with a slash between, behind their length; length 0 where absent.
fn same_codons(b: &[u8], codons: Option<Codons>) -> bool {
    let Some(c) = codons else {
        return byte_at(b, 0) == 0;
    };
    let n = usize::from(c.reference.len);
    n <= 3
        && byte_at(b, 0) == 2 * u64::from(c.reference.len) + 1
        && byte_at(b, 1 + n) == 47
        && same_codon(from(b, 1), c.reference, c.place)
        && same_codon(from(b, 2 + n), c.altered, c.place)
}

// One letter, or two with a slash between, behind their length; length 0 where absent.
fn same_letters(b: &[u8], letters: Option<AminoAcids>) -> bool {
    match letters {
        None => byte_at(b, 0) == 0,
        Some(AminoAcids::One(x)) => byte_at(b, 0) == 1 && byte_at(b, 1) == u64::from(x),
        Some(AminoAcids::Change(x, y)) => {
            byte_at(b, 0) == 3
                && byte_at(b, 1) == u64::from(x)
                && byte_at(b, 2) == 47
                && byte_at(b, 3) == u64::from(y)
        }
    }
}

// Whether the answer is the one that stands here.
pub(crate) fn same_answer(b: &[u8], a: ConsequenceResult) -> bool {
    same_place(b, a.location)
        && same_numbered(from(b, 16), a.exon)
        && same_numbered(from(b, 20), a.intron)
        && same_counted(from(b, 24), a.cds_position)
        && same_counted(from(b, 28), cdna_count(a.cdna_position))
        && same_counted(from(b, 32), a.protein_start)
        && same_codons(from(b, 36), a.codons)
        && same_letters(from(b, 44), a.amino_acids)
        && u64::from(a.consequences.0) == u32_at(b, 48)
}
