// A codon with one base replaced, and the letters of all such codons.
ghost use Rattle.std.specs.Prelude.{◌≡◌, List, ℕ, ◌+◌, ◌*◌, ◌<◌};
ghost use Rattle.codon.specs.declared.Codon.{Codon};
ghost use Rattle.codon.specs.Table.{code_table, codon_to_index, translate_codon, build_alt_codon};
ghost use Rattle.codon.specs.Altered.{altered_letter};
ghost use Rattle.codon.specs.code.Letters.{code_number, LentLetters, BothLetters};

use crate::bases::base_number;
use crate::{CodeLetters, Codon, GeneticCode};

// The letter of each codon with each place replaced by each base, in each genetic code: entry 768 * code + 256 * place + 4 * codon + base.
// In this order the compiler lays the table out by whole words.
const ALTERED_LETTERS: [u8; 1536] = *b"\
KQE*NHDYKQE*NHDYTPASTPASTPASTPASRRG*SRGCRRGWSRGCILVLILVFMLVLILVFKQE*NHDYKQE*NHDYTPASTPASTPASTPAS\
RRG*SRGCRRGWSRGCILVLILVFMLVLILVFKQE*NHDYKQE*NHDYTPASTPASTPASTPASRRG*SRGCRRGWSRGCILVLILVFMLVLILVF\
KQE*NHDYKQE*NHDYTPASTPASTPASTPASRRG*SRGCRRGWSRGCILVLILVFMLVLILVFKTRINTSIKTRMNTSIKTRINTSIKTRMNTSI\
KTRINTSIKTRMNTSIKTRINTSIKTRMNTSIQPRLHPRLQPRLHPRLQPRLHPRLQPRLHPRLQPRLHPRLQPRLHPRLQPRLHPRLQPRLHPRL\
EAGVDAGVEAGVDAGVEAGVDAGVEAGVDAGVEAGVDAGVEAGVDAGVEAGVDAGVEAGVDAGV*S*LYSCF*SWLYSCF*S*LYSCF*SWLYSCF\
*S*LYSCF*SWLYSCF*S*LYSCF*SWLYSCFKNKNKNKNKNKNKNKNTTTTTTTTTTTTTTTTRSRSRSRSRSRSRSRSIIMIIIMIIIMIIIMI\
QHQHQHQHQHQHQHQHPPPPPPPPPPPPPPPPRRRRRRRRRRRRRRRRLLLLLLLLLLLLLLLLEDEDEDEDEDEDEDEDAAAAAAAAAAAAAAAA\
GGGGGGGGGGGGGGGGVVVVVVVVVVVVVVVV*Y*Y*Y*Y*Y*Y*Y*YSSSSSSSSSSSSSSSS*CWC*CWC*CWC*CWCLFLFLFLFLFLFLFLF\
KQE*NHDYKQE*NHDYTPASTPASTPASTPAS*RGWSRGC*RGWSRGCMLVLILVFMLVLILVFKQE*NHDYKQE*NHDYTPASTPASTPASTPAS\
*RGWSRGC*RGWSRGCMLVLILVFMLVLILVFKQE*NHDYKQE*NHDYTPASTPASTPASTPAS*RGWSRGC*RGWSRGCMLVLILVFMLVLILVF\
KQE*NHDYKQE*NHDYTPASTPASTPASTPAS*RGWSRGC*RGWSRGCMLVLILVFMLVLILVFKT*MNTSIKT*MNTSIKT*MNTSIKT*MNTSI\
KT*MNTSIKT*MNTSIKT*MNTSIKT*MNTSIQPRLHPRLQPRLHPRLQPRLHPRLQPRLHPRLQPRLHPRLQPRLHPRLQPRLHPRLQPRLHPRL\
EAGVDAGVEAGVDAGVEAGVDAGVEAGVDAGVEAGVDAGVEAGVDAGVEAGVDAGVEAGVDAGV*SWLYSCF*SWLYSCF*SWLYSCF*SWLYSCF\
*SWLYSCF*SWLYSCF*SWLYSCF*SWLYSCFKNKNKNKNKNKNKNKNTTTTTTTTTTTTTTTT*S*S*S*S*S*S*S*SMIMIMIMIMIMIMIMI\
QHQHQHQHQHQHQHQHPPPPPPPPPPPPPPPPRRRRRRRRRRRRRRRRLLLLLLLLLLLLLLLLEDEDEDEDEDEDEDEDAAAAAAAAAAAAAAAA\
GGGGGGGGGGGGGGGGVVVVVVVVVVVVVVVV*Y*Y*Y*Y*Y*Y*Y*YSSSSSSSSSSSSSSSSWCWCWCWCWCWCWCWCLFLFLFLFLFLFLFLF";

// The codon with the base at a place, 0 to 2, replaced; at another place none is. Codon, place and base are the Rust's parameters.
#[tactic(auto, unfolding(crate::specs::Table::build_alt_codon))]
pub fn build_alt_codon(c: Codon, place: u8, b: u8) -> Codon
    ensures { result ≡ build_alt_codon c place b }
{
    Codon {
        first: if place == 0 { b } else { c.first },
        second: if place == 1 { b } else { c.second },
        third: if place == 2 { b } else { c.third },
        ..c
    }
}

// The letters of both genetic codes.
#[derive(Clone, Copy)]
pub struct AllLetters {
    pub bytes: [u8; 1536],
    pub ghost both: { BothLetters bytes },
}

// A constant is laid out wherever it is read: who asks for many letters asks once for these, and lends the part of a code.
pub fn altered_letters() -> AllLetters
    ensures { BothLetters result.bytes }
{
    AllLetters {
        bytes: ALTERED_LETTERS,
    }
}

// Where the letters of a code begin.
fn letters_from(code: GeneticCode) -> usize
    ensures { result ≡ 768 * code_number code }
{
    code as usize * 768
}

// The letters of one code.
pub fn letters_of(both: &AllLetters, code: GeneticCode) -> CodeLetters
    ensures { LentLetters (code_table code) result }
{
    let all = &both.bytes[..];
    let from = letters_from(code);
    CodeLetters {
        bytes: &all[from..],
    }
}

// The entry of a codon's place, a place in the codon and a base number. A place is a u8, as in the Rust: a type of three cases would be
// made of it at each call.
pub(crate) fn altered_letter(letters: CodeLetters, codon: u8, place: u8, base: u8) -> u8
    requires { (codon < 64) × (place < 3) × (base < 4) }
    ensures { (table : List ℕ)
        → LentLetters table letters.entry
        → result ≡ altered_letter table (codon * 12 + place * 4 + base) }
{
    letters.bytes[place as usize * 256 + codon as usize * 4 + base as usize]
}

// The letter of the codon of that number with the base at a place replaced.
#[tactic(auto, using(crate::proofs::Index::number_below), unfolding(crate::specs::Table::translate_codon))]
pub(crate) fn altered_letter_at(letters: CodeLetters, codon: u8, place: u8, b: u8) -> u8
    requires { (codon < 64) × (place < 3) }
    ensures { (table : List ℕ) (c : Codon)
        → LentLetters table letters.entry
        → codon_to_index c ≡ Some codon
        → result ≡ translate_codon table (build_alt_codon c place b) }
{
    match base_number(b) {
        Some(base) => altered_letter(letters, codon, place, base),
        None => b'X',
    }
}
