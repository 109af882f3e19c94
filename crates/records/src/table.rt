// The table of lent exon records, and the transcript on it.
ghost use Rattle.records.specs.code.Table.{Tabled, LentOn};

use super::ExonTable;
use common::refusal::Refusal;
use transcript::{CdsSegments, Exon, Intervals, Transcript, TranscriptModel};

// The records' number, and the starts and ends of up to 512. Of a longer list none is copied.
pub(crate) fn table_of(exons: &[Exon]) -> ExonTable
    ensures { Tabled exons.now result }
{
    let count = exons.len();
    let mut starts = [0u64; 512];
    let mut ends = [0u64; 512];
    if count <= 512 {
        for (i, exon) in exons.iter().enumerate() {
            starts[i] = exon.genomic_start;
            ends[i] = exon.genomic_end;
        }
    }
    ExonTable {
        count,
        starts,
        ends,
    }
}

// The transcript on the records of a table; over 512 records are refusal 1.
pub(crate) fn transcript_on<'a>(
    model: TranscriptModel,
    table: &'a ExonTable,
    segments: CdsSegments<'a>,
    selenocysteine: &'a [u64],
) -> Result<Transcript<'a>, Refusal>
    ensures { LentOn model table.now segments.entry selenocysteine.now result }
{
    let n = table.count;
    if 512 < n {
        return Err(Refusal::Counts);
    }
    Ok(Transcript {
        model,
        exons: Intervals {
            starts: &table.starts[..n],
            ends: &table.ends[..n],
        },
        segments,
        selenocysteine,
    })
}
