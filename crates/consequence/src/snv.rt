// The single-base call on a transcript as it is handed in.
ghost use Rattle.std.specs.Prelude.{◌≡◌};
ghost use Rattle.transcript.specs.Transcript.{transcript_of};
ghost use Rattle.consequence.specs.Window.{window_of};
ghost use Rattle.footprint.specs.Ranges.{source_ranges};
ghost use Rattle.consequence.specs.Call.{annotate_snv};

use super::summed::annotate_summed;
use super::{Call, Called, CodedTranscript, Window};
use codon::altered_letters;
use footprint::{has_frameshift_intron, source_ranges};
use locate::sum_up;
use transcript::admission::Admitted;
use transcript::{Stranded, Transcript};

// The whole answer to a call, or its refusal: 1 to 13, then 15, 14, 16, 17, 18, 19 and 21. Window, call and transcript are what every
// question of a call has; each comes from elsewhere, and a struct of the three is no plainer.
pub fn annotate_snv(window: &Window, call: Call, transcript: &Transcript) -> Called
    ensures { let t = transcript_of transcript.now in
        let w = window_of window.now in
        result ≡ annotate_snv source_ranges t w call }
{
    let admitted = Admitted::of(transcript)?;
    let short = has_frameshift_intron(Stranded::exons(transcript));
    let mut cumulative_exons = [0u32; 513];
    let mut cumulative_cds = [0u32; 513];
    sum_up(&mut cumulative_exons, &mut cumulative_cds, admitted);
    let ranges = source_ranges();
    let both = altered_letters();
    annotate_summed(
        ranges,
        CodedTranscript::of(&both, transcript),
        window,
        call,
        &cumulative_exons,
        &cumulative_cds,
        short,
    )
}
