// What the letters column shows.
ghost use Rattle.std.specs.Prelude.{◌≡◌};
ghost use Rattle.codon.specs.Display.{letters_of};

use crate::AminoAcids;

// One letter where the two agree, else both.
#[tactic(auto, unfolding(crate::specs::Display::letters_of))]
pub fn format_amino_acids(reference: u8, altered: u8) -> AminoAcids
    ensures { result ≡ letters_of reference altered }
{
    if reference == altered {
        AminoAcids::One(reference)
    } else {
        AminoAcids::Change(reference, altered)
    }
}
