// The transcripts of a table, one after the other.
ghost use Rattle.std.specs.Prelude.{◌≡◌};
ghost use Rattle.std.specs.Iterator.{YieldsFirst, item_count};
ghost use Rattle.deck.specs.code.Table.{transcript_rows, rows_left};

use crate::Table;
use crate::rows::Rows;

// The rows of the transcripts from a row on.
#[derive(Clone, Copy)]
pub struct TranscriptRows<'a> {
    table: &'a Table,
    row: usize,
}

impl<'a> Iterator for TranscriptRows<'a> {
    type Item = Rows;

    ghost next_gives = { YieldsFirst rows_left };

    ghost remaining = { item_count rows_left };

    #[tactic(auto, using(crate::proofs::RowOrder::rows_step, crate::proofs::RowOrder::rows_stop))]
    fn next(&mut self) -> Option<Rows> {
        let rows = self.table.transcript_rows_at(self.row)?;
        self.row = rows.bases;
        Some(rows)
    }
}

impl Table {
    pub fn transcripts(&self) -> TranscriptRows
        ensures { rows_left result ≡ transcript_rows self.now }
    {
        TranscriptRows {
            table: self,
            row: 0,
        }
    }
}
