// A call on a transcript of an indexed table.
ghost use Rattle.std.specs.Prelude.{◌≡◌, ◌<◌, get_or, drop};
ghost use Rattle.consequence.specs.Window.{window_of};
ghost use Rattle.listing.specs.Entries.{listed_call};
ghost use Rattle.consequence.specs.code.Prepared.{Summed};
ghost use Rattle.deck.specs.code.Table.{InOrder, transcript_in};
ghost use Rattle.pieces.specs.code.TableIndex.{cds_row, rows_of};

use crate::IndexEntry;
use crate::opened::Sources;
use consequence::{Call, Called, CodedTranscript, annotate_summed};
use deck::rows::Rows;
use footprint::source_ranges;

// Where the sums of the CDS begin.
fn cds_row(rows: Rows) -> usize
    ensures { result ≡ cds_row rows }
{
    if rows.bounds == rows.exons {
        rows.row
    } else {
        rows.exons
    }
}

// The sums from a row on.
fn sums_from(sums: &[u32; 4096], row: usize) -> &[u32]
    requires { row < 4096 }
    ensures { result.now ≡ drop row sums.now }
{
    let all = &sums[..];
    &all[row..]
}

// The answer to a call on an admitted transcript of the index.
pub(crate) fn call_indexed(sources: Sources, call: Call, entry: IndexEntry) -> Called
    requires in_order { InOrder (rows_of entry) }
    requires summed { let r = rows_of entry in
        let sums = sources.deck.index.now.sums in
        Summed (transcript_in sources.deck.table.now r) (drop r.row sums) (drop (cds_row r) sums) entry.short }
    ensures { let t = transcript_in sources.entry.deck.table.now (rows_of entry) in
        let w = window_of sources.entry.window.now in
        result ≡ listed_call t w call }
{
    let rows = entry.rows();
    let transcript = sources.deck.table.transcript(rows);
    let sums = &sources.deck.index.sums;
    annotate_summed(
        source_ranges(),
        CodedTranscript::of(sources.both, &transcript),
        sources.window,
        call,
        sums_from(sums, rows.row),
        sums_from(sums, cds_row(rows)),
        entry.short,
    )
}
