// The single-base call on exons that are lent as records.
ghost use Rattle.std.specs.Prelude.{◌≡◌};
ghost use Rattle.footprint.specs.Ranges.{source_ranges};
ghost use Rattle.consequence.specs.Window.{window_of};
ghost use Rattle.consequence.specs.Call.{annotate_snv};
ghost use Rattle.records.specs.Records.{records_lent};

use super::table::{table_of, transcript_on};
use consequence::{Call, Called, Window, annotate_snv};
use transcript::{CdsSegments, Exon, TranscriptModel};

// The whole answer to a call, or its refusal.
pub fn annotate_exons(
    window: &Window,
    call: Call,
    model: TranscriptModel,
    exons: &[Exon],
    segments: CdsSegments,
    selenocysteine: &[u64],
) -> Called
    ensures { let t = records_lent model exons.now segments.entry selenocysteine.now in
        result ≡ annotate_snv source_ranges t (window_of window.now) call }
{
    let table = table_of(exons);
    let transcript = transcript_on(model, &table, segments, selenocysteine)?;
    annotate_snv(window, call, &transcript)
}
