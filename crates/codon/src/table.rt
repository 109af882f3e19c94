// The genetic codes: the letter of a codon.
ghost use Rattle.std.specs.Prelude.{◌≡◌, ◌<◌};
ghost use Rattle.codon.specs.Table.{code_table, codon_to_index, letter_at, translate_codon, is_tga, reference_letter, translate_reference_codon};

use crate::bases::base_number;
use crate::{Codon, GeneticCode};

// NCBI table 1: the letter of the codon 16 * first + 4 * second + third.
const STANDARD_TABLE: [u8; 64] = *b"\
KNKNTTTTRSRSIIMI\
QHQHPPPPRRRRLLLL\
EDEDAAAAGGGGVVVV\
*Y*YSSSS*CWCLFLF";

// NCBI table 2, in the same order.
const MITOCHONDRIAL_TABLE: [u8; 64] = *b"\
KNKNTTTT*S*SMIMI\
QHQHPPPPRRRRLLLL\
EDEDAAAAGGGGVVVV\
*Y*YSSSSWCWCLFLF";

// The place of a codon in a table, 0 to 63; none where a byte is not A, C, G or T.
#[tactic(auto, using(crate::proofs::Index::number_below), unfolding(crate::specs::Table::codon_to_index))]
pub(crate) fn codon_to_index(c: Codon) -> Option<u8>
    ensures { result ≡ codon_to_index c }
{
    let first = base_number(c.first)?;
    let second = base_number(c.second)?;
    let third = base_number(c.third)?;
    Some(first * 16 + second * 4 + third)
}

// The letter at a place of a code's table.
#[tactic(auto, unfolding(crate::specs::Table::standard_table, crate::specs::Table::mitochondrial_table))]
fn letter_at(code: GeneticCode, n: u8) -> u8
    requires { n < 64 }
    ensures { result ≡ letter_at (code_table code) (Some n) }
{
    match code {
        GeneticCode::Standard => STANDARD_TABLE[n as usize],
        GeneticCode::VertebrateMitochondrial => MITOCHONDRIAL_TABLE[n as usize],
    }
}

// The letter of a codon, X where a byte is not A, C, G or T.
#[tactic(auto, using(crate::proofs::Index::codon_below), unfolding(crate::specs::Table::translate_codon))]
pub fn translate_codon(code: GeneticCode, c: Codon) -> u8
    ensures { result ≡ translate_codon (code_table code) c }
{
    match codon_to_index(c) {
        Some(n) => letter_at(code, n),
        None => b'X',
    }
}

fn is_tga(c: Codon) -> bool
    ensures { result ≡ is_tga c }
{
    c.first == b'T' && c.second == b'G' && c.third == b'A'
}

// The letter of a reference codon whose plain letter is given: a TGA that holds a selenocysteine base reads U.
pub(crate) fn reference_letter(selenocysteine: bool, c: Codon, letter: u8) -> u8
    ensures { result ≡ reference_letter selenocysteine c letter }
{
    if is_tga(c) && selenocysteine {
        b'U'
    } else {
        letter
    }
}

// The letter of a reference codon.
#[tactic(auto, unfolding(crate::specs::Table::translate_reference_codon))]
pub fn translate_reference_codon(code: GeneticCode, selenocysteine: bool, c: Codon) -> u8
    ensures { result ≡ translate_reference_codon (code_table code) selenocysteine c }
{
    reference_letter(selenocysteine, c, translate_codon(code, c))
}
