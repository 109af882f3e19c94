// A transcript of a table in lent lists.
ghost use Rattle.std.specs.Prelude.{[], ◌∷◌};
ghost use Rattle.deck.specs.code.Table.{transcript_in};
ghost use Rattle.contents.specs.code.Columns.{Columns};
ghost use Rattle.contents.specs.code.Lists.{StoredIn};

use crate::TranscriptLists;
use crate::lists::store;
use crate::scalars::store_scalars;
use deck::Table;
use deck::rows::Rows;

// One list at a time: the borrow checker does not lend two `&mut` fields of a struct handed over by value at once.
pub(crate) fn store_row(table: &Table, rows: Rows, lists: TranscriptLists)
    requires { Columns table.now }
    ensures { StoredIn (transcript_in table.now rows ∷ []) lists }
{
    let segments = table.segment_starts(rows);
    let bases = table.bases(rows);
    let model = table.model_in(rows);
    store_scalars(lists.scalars, model, segments.len(), bases.len());
    store(lists.exon_starts, table.exon_starts(rows));
    store(lists.exon_ends, table.exon_ends(rows));
    store(lists.seg_phases, table.segment_phases(rows));
    store(lists.seg_exons, table.segment_exons(rows));
    store(lists.seg_starts, segments);
    store(lists.seg_ends, table.segment_ends(rows));
    store(lists.selenocysteine, bases);
}
