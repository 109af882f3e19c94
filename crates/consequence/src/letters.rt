// The tests of a codon by its number, and the letters shown.
ghost use Rattle.std.specs.Prelude.{◌≡◌, ℕ};
ghost use Rattle.transcript.specs.Orient.{Oriented};
ghost use Rattle.terms.specs.Coding.{unknown_letter};
ghost use Rattle.consequence.specs.Coding.{is_start_codon, is_padded_codon, shows_codon, shown_letters};

use codon::{AminoAcids, format_amino_acids};

// The start test: codon 1, start complete, pad 0.
pub(crate) fn is_start_codon(pad: u32, start_complete: bool, number: u32) -> bool
    ensures { (t : Oriented) → t.pad ≡ pad → t.start_complete ≡ start_complete → result ≡ is_start_codon t number }
{
    number == 1 && start_complete && pad == 0
}

// The padded first codon of a CDS whose start is incomplete.
pub(crate) fn is_padded_codon(pad: u32, number: u32) -> bool
    ensures { (t : Oriented) → t.pad ≡ pad → result ≡ is_padded_codon t number }
{
    number == 1 && 0 < pad
}

// Whether codon number and codons are shown.
pub(crate) fn shows_codon(padded: bool, reference: u8) -> bool
    ensures { (t : Oriented) (number : ℕ) → padded ≡ is_padded_codon t number → result ≡ shows_codon t number reference }
{
    padded || reference != b'X'
}

// Either letter is X.
fn is_unknown(reference: u8, altered: u8) -> bool
    ensures { result ≡ unknown_letter reference altered }
{
    reference == b'X' || altered == b'X'
}

// The letters shown: none where one is unknown, but X for a padded codon.
#[tactic(auto, unfolding(crate::specs::Coding::shown_letters))]
pub(crate) fn shown_letters(padded: bool, reference: u8, altered: u8) -> Option<AminoAcids>
    ensures { (t : Oriented) (number : ℕ)
        → padded ≡ is_padded_codon t number
        → result ≡ shown_letters t number reference altered }
{
    if !is_unknown(reference, altered) {
        Some(format_amino_acids(reference, altered))
    } else if padded {
        Some(AminoAcids::One(b'X'))
    } else {
        None
    }
}
