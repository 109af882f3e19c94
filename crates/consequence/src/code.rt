// The genetic code of a chromosome, and a transcript with the letters of its own.
ghost use Rattle.std.specs.Prelude.{◌≡◌};
ghost use Rattle.codon.specs.Table.{code_table};
ghost use Rattle.codon.specs.code.Letters.{LentLetters};
ghost use Rattle.consequence.specs.Call.{code_of};

use super::CodedTranscript;
use codon::{AllLetters, CodeLetters, GeneticCode, letters_of};
use transcript::Transcript;

// chrM, 25, has the vertebrate mitochondrial code.
fn genetic_code(chromosome: u16) -> GeneticCode
    ensures { result ≡ code_of chromosome }
{
    if chromosome == 25 {
        return GeneticCode::VertebrateMitochondrial;
    }
    GeneticCode::Standard
}

// The letters by which the codons of a transcript on that chromosome are read, out of those of both codes.
pub fn call_letters(both: &AllLetters, chromosome: u16) -> CodeLetters
    ensures { LentLetters (code_table (code_of chromosome)) result }
{
    letters_of(both, genetic_code(chromosome))
}

impl<'a> CodedTranscript<'a> {
    // The transcript with its letters out of those of both codes.
    pub fn of(both: &'a AllLetters, transcript: &'a Transcript<'a>) -> CodedTranscript<'a>
        ensures { result.transcript.now ≡ transcript.now }
    {
        CodedTranscript {
            letters: call_letters(both, transcript.model.chromosome),
            transcript,
        }
    }
}
