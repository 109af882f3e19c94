// The answer to a call as numbers.
ghost use Rattle.std.specs.Prelude.{◌+◌, ◌≤◌, ◌≡◌, ◌∷◌, length, pos, replicate};
ghost use Rattle.std.proofs.lemmas.List.Edits.{sets};
ghost use Rattle.consequence.specs.Numbers.{column_words};
ghost use Rattle.words.specs.code.Put.{put_at};
ghost use Rattle.words.specs.code.Near.{capped_words};

use crate::columns::{
    altered_word, cdna_of, changed_place, count_of, letters_word, number_of, reference_word,
    total_of,
};
use crate::row::{place_words, row_of};
use crate::words::{has_room, put_all, put_both, put_fitting, refusal_words};
use consequence::ConsequenceResult;

// The columns, which stand behind the place.
#[inline(always)]
fn column_words(a: ConsequenceResult) -> [i64; 12]
    ensures { result ≡ column_words a }
{
    [
        number_of(a.exon) as i64,
        total_of(a.exon) as i64,
        number_of(a.intron) as i64,
        total_of(a.intron) as i64,
        count_of(a.cds_position) as i64,
        cdna_of(a.cdna_position) as i64,
        count_of(a.protein_start) as i64,
        reference_word(a.codons) as i64,
        altered_word(a.codons) as i64,
        changed_place(a.codons) as i64,
        letters_word(a.amino_acids) as i64,
        a.consequences.0 as i64,
    ]
}

pub fn put_refusal(out: &mut [i64], at: usize, n: u8)
    requires { at + 20 ≤ length out.old }
    ensures { out.new ≡ sets out.old at (pos n ∷ replicate 19 (pos 0)) }
{
    put_all(out, at, &refusal_words::<20>(n));
}

// An answer, or a refusal of any number, as 20 numbers, in any buffer. Where they do not fit nothing is stored. Inlined, so that an answer
// is not laid out twice.
#[inline(always)]
pub fn put_called(out: &mut [i64], at: usize, called: Result<ConsequenceResult, u8>)
    ensures { out.new ≡ put_at out.old at (capped_words called) }
{
    match called {
        Ok(a) => {
            if has_room(out.len(), at, 20) {
                put_both(out, at, &place_words(row_of(a.location)), &column_words(a));
            }
        }
        Err(n) => put_fitting(out, at, &refusal_words::<20>(n)),
    }
}
