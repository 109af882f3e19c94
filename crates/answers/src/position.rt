// The place of a lone position in an admitted transcript.
ghost use Rattle.std.specs.Prelude.{◌≡◌};
ghost use Rattle.transcript.specs.Transcript.{transcript_of};
ghost use Rattle.locate.specs.Query.{locate_position};

use crate::lent::Indexed;
use common::refusal::Refusal;
use footprint::Ranges;
use locate::VariantLocation;
use transcript::question::{QUERY_LIMIT, base_of};

// The place of [p, p + 1).
pub(crate) fn locate_position(
    ranges: Ranges,
    chromosome: u16,
    p: u64,
    indexed: Indexed,
) -> Result<VariantLocation, Refusal>
    ensures { result ≡ locate_position ranges (transcript_of indexed.entry.admitted.transcript.now) chromosome p }
{
    if QUERY_LIMIT <= p {
        return Err(Refusal::Interval);
    }
    if chromosome != indexed.admitted.transcript.model.chromosome {
        return Err(Refusal::Chromosome);
    }
    let q = base_of(indexed.admitted.transcript.model.strand, p);
    Ok(indexed.place(ranges, q))
}
