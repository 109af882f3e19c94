// The ids of a deck's transcripts.
ghost use Rattle.std.specs.Prelude.{◌≤◌, ◌≡◌, map, get_or};
ghost use Rattle.common.specs.Stored.{stored, Pushed};
ghost use Rattle.deck.specs.code.Table.{transcript_rows};
ghost use Rattle.contents.specs.Contents.{deck_content, deck_ids};

use common::text::push;
use deck::{DeckRefusal, Table, read_deck};

// The ids of the transcripts of a table.
fn push_ids(table: &Table, ids: &mut [u32]) -> usize
    ensures { let rows = transcript_rows table.now in
        Pushed ids.old 0 (map (λ r. get_or table.now.ids r.row 0) rows) ids.new result × (result ≤ 4096) }
{
    let mut n = 0;
    for rows in table.transcripts() {
        n = push(ids, n, table.ids[rows.row]);
    }
    n
}

// How many transcripts the deck has. Their ids are stored at the front of `ids` as far as it reaches.
pub fn deck_ids(bytes: &[u8], ids: &mut [u32]) -> Result<usize, DeckRefusal>
    ensures value { result ≡ deck_content bytes.now }
    ensures ids_after { ids.new ≡ stored ids.old 0 (deck_ids bytes.now) }
{
    let mut table = Table::empty();
    read_deck(bytes, &mut table)?;
    Ok(push_ids(&table, ids))
}
