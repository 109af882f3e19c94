// A transcript's entry in the index.
ghost use Rattle.std.specs.Prelude.{◌≡◌};
ghost use Rattle.deck.specs.code.Table.{InOrder};
ghost use Rattle.pieces.specs.code.TableIndex.{entry_of, rows_of};

use crate::IndexEntry;
use deck::rows::Rows;

impl IndexEntry {
    // No `From`: the rows must be in their order, and `short` is not of them. The way back stands beside it in the same form.
    pub(crate) fn of(rows: Rows, short: bool) -> IndexEntry
        requires { InOrder rows }
        ensures { result ≡ entry_of rows short }
    {
        IndexEntry {
            row: rows.row as u16,
            exons: rows.exons as u16,
            bounds: rows.bounds as u16,
            segments: rows.segments as u16,
            bases: rows.bases as u16,
            short,
        }
    }

    pub(crate) fn rows(self) -> Rows
        ensures { result ≡ rows_of self }
    {
        Rows {
            row: usize::from(self.row),
            exons: usize::from(self.exons),
            bounds: usize::from(self.bounds),
            segments: usize::from(self.segments),
            bases: usize::from(self.bases),
        }
    }
}
