// The question of a place: its refusals, then the place of its first base.
ghost use Rattle.std.specs.Prelude.{◌≡◌};
ghost use Rattle.footprint.specs.Ranges.{source_ranges};
ghost use Rattle.transcript.specs.Transcript.{transcript_of};
ghost use Rattle.locate.specs.Query.{locate_variant};

use super::VariantLocation;
use super::alone::place_alone;
use common::refusal::Refusal;
use footprint::source_ranges;
use transcript::Transcript;
use transcript::admission::Admitted;
use transcript::question::{bad_place, base_of};

// The place of the base at `start`. The parameters are the Rust's, as at footprint's `judge_interval`.
pub fn locate_variant(
    chromosome: u16,
    start: u64,
    end: u64,
    transcript: &Transcript,
) -> Result<VariantLocation, Refusal>
    ensures { result ≡ locate_variant source_ranges (transcript_of transcript.now) chromosome start end }
{
    let admitted = Admitted::of(transcript)?;
    if bad_place(start, end) {
        return Err(Refusal::Interval);
    }
    if chromosome != transcript.model.chromosome {
        return Err(Refusal::Chromosome);
    }
    let p = base_of(transcript.model.strand, start);
    Ok(place_alone(source_ranges(), admitted, p))
}
