// The single-base call on an admitted transcript.
ghost use Rattle.std.specs.Prelude.{◌≡◌};
ghost use Rattle.transcript.specs.Transcript.{transcript_of};
ghost use Rattle.consequence.specs.Window.{window_of};
ghost use Rattle.consequence.specs.Call.{annotate_snv};
ghost use Rattle.consequence.specs.code.Prepared.{Prepared};

use super::placed::annotate_placed;
use super::refusal::judge_opening;
use super::{Call, Called, CodedTranscript, Window};
use footprint::Ranges;
use locate::IndexScalars;
use locate::place::place_of_base;
use transcript::admission::Admitted;
use transcript::question::base_of;

// The answer from the transcript's index, or the refusal: 15, 14, 16, 17, 18, 19 and 21. The parts of the index stand apart, here and in what
// is called: with one struct that lends them a call of a list took 3.5 to 5 ns longer, a tenth for short transcripts.
pub fn annotate_admitted(
    ranges: Ranges,
    coded: CodedTranscript,
    window: &Window,
    call: Call,
    scalars: IndexScalars,
    cumulative_exons: &[u32],
    cumulative_cds: &[u32],
    selenocysteine_codons: &[u32; 64],
) -> Called
    requires prepared { Prepared (transcript_of coded.transcript.now) scalars cumulative_exons.now cumulative_cds.now selenocysteine_codons.now }
    ensures { let t = transcript_of coded.entry.transcript.now in
        let w = window_of window.now in
        result ≡ annotate_snv ranges t w call }
{
    let transcript = coded.transcript;
    judge_opening(transcript.model.chromosome, window, call)?;
    let p = base_of(transcript.model.strand, call.position);
    let place = place_of_base(
        ranges,
        Admitted { transcript },
        scalars,
        cumulative_exons,
        p,
    );
    annotate_placed(
        ranges,
        coded,
        window,
        call.alt_base,
        scalars,
        cumulative_exons,
        cumulative_cds,
        selenocysteine_codons,
        place,
        p,
    )
}
