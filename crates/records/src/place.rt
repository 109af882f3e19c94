// The place on exons that are lent as records.
ghost use Rattle.std.specs.Prelude.{◌≡◌};
ghost use Rattle.footprint.specs.Ranges.{source_ranges};
ghost use Rattle.locate.specs.Query.{locate_variant};
ghost use Rattle.records.specs.Records.{records_lent};

use super::table::{table_of, transcript_on};
use common::refusal::Refusal;
use locate::{VariantLocation, locate_variant};
use transcript::{CdsSegments, Exon, TranscriptModel};

// The place of the base at `start`, or its refusal.
pub fn locate_exons(
    chromosome: u16,
    start: u64,
    end: u64,
    model: TranscriptModel,
    exons: &[Exon],
    segments: CdsSegments,
    selenocysteine: &[u64],
) -> Result<VariantLocation, Refusal>
    ensures { let t = records_lent model exons.now segments.entry selenocysteine.now in
        result ≡ locate_variant source_ranges t chromosome start end }
{
    let table = table_of(exons);
    let transcript = transcript_on(model, &table, segments, selenocysteine)?;
    locate_variant(chromosome, start, end, &transcript)
}
