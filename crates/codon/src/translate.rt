// The two letters of a call.
ghost use Rattle.std.specs.Prelude.{◌≡◌, List, ℕ};
ghost use Rattle.codon.specs.Table.{code_table, codon_to_index, letter_at, translate_codon, translate_reference_codon, build_alt_codon};
ghost use Rattle.codon.specs.code.Letters.{LentLetters};

use crate::altered::{
    altered_letter, altered_letter_at, altered_letters, build_alt_codon, letters_of,
};
use crate::table::{codon_to_index, reference_letter};
use crate::{CodeLetters, Codon, GeneticCode, Letters};

// The letter of a codon by its number: that of the codon with its own third base put in.
// An index or X: map_or with the call inside is no shorter.
#[tactic(auto, using(crate::proofs::Index::codon_below), unfolding(crate::specs::Table::translate_codon))]
fn own_letter(letters: CodeLetters, c: Codon, index: Option<u8>) -> u8
    requires { index ≡ codon_to_index c }
    ensures { (table : List ℕ)
        → LentLetters table letters.entry
        → result ≡ translate_codon table c }
{
    match index {
        Some(n) => altered_letter(letters, n, 2, n % 4),
        None => b'X',
    }
}

// The letter of the codon of that number with the base at a place replaced. Where a byte of it is no base, the one at the place may be:
// A stands for it.
#[tactic(auto, using(crate::proofs::Index::codon_below), unfolding(crate::specs::Table::translate_codon))]
fn letter_put_in(letters: CodeLetters, c: Codon, index: Option<u8>, place: u8, b: u8) -> u8
    requires { index ≡ codon_to_index c }
    ensures { (table : List ℕ)
        → LentLetters table letters.entry
        → result ≡ translate_codon table (build_alt_codon c place b) }
{
    if place > 2 {
        return own_letter(letters, c, index);
    }
    if let Some(n) = index {
        return altered_letter_at(letters, n, place, b);
    }
    match codon_to_index(build_alt_codon(c, place, b'A')) {
        Some(n) => altered_letter_at(letters, n, place, b),
        None => b'X',
    }
}

// The letters of a reference codon and of that codon with the base at a place replaced, by the letters of a genetic code that are lent.
// Where all three bytes are bases, both are read by one number of the codon.
#[tactic(auto, unfolding(crate::specs::Table::translate_reference_codon))]
pub fn translate_codons(
    letters: CodeLetters,
    selenocysteine: bool,
    c: Codon,
    place: u8,
    b: u8,
) -> Letters
    ensures { (table : List ℕ)
        → LentLetters table letters.entry
        → (result.reference ≡ translate_reference_codon table selenocysteine c)
        × (result.altered ≡ translate_codon table (build_alt_codon c place b)) }
{
    let index = codon_to_index(c);
    Letters {
        reference: reference_letter(selenocysteine, c, own_letter(letters, c, index)),
        altered: letter_put_in(letters, c, index, place, b),
    }
}

// The letter of the codon with the base at a place replaced.
pub fn translate_altered_codon(code: GeneticCode, c: Codon, place: u8, b: u8) -> u8
    ensures { result ≡ translate_codon (code_table code) (build_alt_codon c place b) }
{
    let both = altered_letters();
    let letters = translate_codons(letters_of(&both, code), false, c, place, b);
    letters.altered
}
