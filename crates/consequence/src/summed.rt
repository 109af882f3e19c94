// The single-base call on an admitted transcript whose lengths are summed up.
ghost use Rattle.std.specs.Prelude.{◌≡◌};
ghost use Rattle.transcript.specs.Transcript.{transcript_of};
ghost use Rattle.consequence.specs.Window.{window_of};
ghost use Rattle.consequence.specs.Call.{annotate_snv};
ghost use Rattle.consequence.specs.code.Prepared.{Summed};

use super::admitted::annotate_admitted;
use super::{Call, Called, CodedTranscript, Window};
use footprint::Ranges;
use locate::{Ordered, scalars_of, selenocysteine_codons};
use transcript::admission::Admitted;

// The answer from the cumulative lengths of exons and CDS and whether there is a short intron, or the number of the refusal: 15,
// 14, 16, 17, 18, 19 and 21.
// The sums apart, as in annotate_admitted.
pub fn annotate_summed(
    ranges: Ranges,
    coded: CodedTranscript,
    window: &Window,
    call: Call,
    cumulative_exons: &[u32],
    cumulative_cds: &[u32],
    short: bool,
) -> Called
    requires summed { Summed (transcript_of coded.transcript.now) cumulative_exons.now cumulative_cds.now short }
    ensures { let t = transcript_of coded.entry.transcript.now in
        let w = window_of window.now in
        result ≡ annotate_snv ranges t w call }
{
    let transcript = coded.transcript;
    let admitted = Admitted { transcript };
    let scalars = scalars_of(admitted, cumulative_exons, cumulative_cds, short);
    let codons = selenocysteine_codons(
        &Ordered::segments(admitted),
        cumulative_cds,
        transcript.selenocysteine,
    );
    let selenocysteine_codons = codons.numbers;
    annotate_admitted(
        ranges,
        coded,
        window,
        call,
        scalars,
        cumulative_exons,
        cumulative_cds,
        &selenocysteine_codons,
    )
}
