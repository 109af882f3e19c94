// What the answers to a list are lent.
ghost use Rattle.std.specs.Prelude.{◌≡◌, ◌≤◌};
ghost use Rattle.codon.specs.code.Letters.{LentLetters};
ghost use Rattle.transcript.specs.Limits.{top};
ghost use Rattle.transcript.specs.Transcript.{transcript_of};
ghost use Rattle.transcript.specs.Orient.{oriented};
ghost use Rattle.locate.specs.Index.{locate_index};
ghost use Rattle.locate.specs.Place.{locate};
ghost use Rattle.consequence.specs.Call.{call_table};

use codon::CodeLetters;
use footprint::Ranges;
use locate::place::place_of_base;
use locate::{LocateIndex, VariantLocation};
use transcript::admission::Admitted;

// An admitted transcript with its index.
#[derive(Clone, Copy)]
pub(crate) struct Indexed<'a> {
    pub(crate) admitted: Admitted<'a>,
    pub(crate) index: &'a LocateIndex,
    ghost indexed: { index.now ≡ locate_index (oriented (transcript_of admitted.transcript.now)) },
}

impl<'a> Indexed<'a> {
    // The place of p, an oriented coordinate.
    #[inline(always)]
    pub(crate) fn place(self, ranges: Ranges, p: u64) -> VariantLocation
        requires { p ≤ top }
        ensures { result ≡ locate ranges (oriented (transcript_of self.entry.admitted.transcript.now)) p }
    {
        place_of_base(
            ranges,
            self.admitted,
            self.index.scalars,
            &self.index.cumulative_exons,
            p,
        )
    }
}

// The same with the letters of its genetic code. No CodedTranscript with the index: what is asked of the place alone takes an `Indexed`,
// and one that is made anew of the parts is no plainer than the fact said again.
#[derive(Clone, Copy)]
pub(crate) struct Coded<'a> {
    pub(crate) indexed: Indexed<'a>,
    pub(crate) letters: CodeLetters<'a>,
    ghost read: { LentLetters (call_table (transcript_of indexed.admitted.transcript.now)) letters },
}
