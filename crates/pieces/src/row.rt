// What is computed once for one transcript of a table: its sums, and whether it has a short intron.
ghost use Rattle.std.specs.Prelude.{◌≡◌, ◌+◌, ◌≤◌, ◌<◌, length};
ghost use Rattle.transcript.specs.Transcript.{transcript_of};
ghost use Rattle.transcript.specs.Admission.{admission};
ghost use Rattle.deck.specs.code.Table.{InOrder, transcript_in};
ghost use Rattle.pieces.specs.code.TableIndex.{is_short, row_sums};

use deck::Table;
use deck::rows::Rows;
use footprint::has_frameshift_intron;
use locate::store_sums;
use transcript::Stranded;
use transcript::admission::Admitted;
use transcript::order::pad_of;

// Stores the sums of an admitted transcript: of its exons from `row` on, of its CDS, if it has one, from `cds_row` on. Answers whether
// it has a short intron.
fn index_transcript(sums: &mut [u32], row: usize, cds_row: usize, admitted: Admitted) -> bool
    requires room { (row + length admitted.transcript.now.exons.starts.now < cds_row) × (cds_row ≤ length sums.old) }
    requires cds_room { let n = length admitted.transcript.now.segments.bases.starts.now in 0 < n → cds_row + n < length sums.old }
    ensures { let t = transcript_of admitted.entry.transcript.now in
        (result ≡ is_short t) × (sums.new ≡ row_sums t row cds_row sums.old) }
{
    let transcript = admitted.transcript;
    let short = has_frameshift_intron(Stranded::exons(transcript));
    store_sums(sums, row, transcript.exons, 0);
    let segments = transcript.segments;
    if segments.bases.starts.len() != 0 {
        store_sums(
            sums,
            cds_row,
            segments.bases,
            u32::from(pad_of(segments.phases)),
        );
    }
    short
}

// The same of a transcript of the table.
pub(crate) fn index_row(table: &Table, rows: Rows, sums: &mut [u32]) -> bool
    requires in_order { InOrder rows }
    requires admitted { admission (transcript_in table.now rows) ≡ 0 }
    requires sums_len { length sums.old ≡ 4096 }
    ensures { let t = transcript_in table.now rows in
        (result ≡ is_short t) × (sums.new ≡ row_sums t rows.row rows.exons sums.old) }
{
    let transcript = table.transcript(rows);
    let admitted = Admitted {
        transcript: &transcript,
    };
    index_transcript(sums, rows.row, rows.exons, admitted)
}
