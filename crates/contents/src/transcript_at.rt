// A transcript of a deck by its place.
ghost use Rattle.std.specs.Prelude.{◌≡◌, take, drop};
ghost use Rattle.deck.specs.code.Table.{table_transcripts};
ghost use Rattle.contents.specs.Contents.{placed, place_content, chosen};
ghost use Rattle.contents.specs.code.Columns.{Columns};
ghost use Rattle.contents.specs.code.Lists.{StoredIn};

use crate::TranscriptLists;
use crate::row::store_row;
use common::refusal::Refusal;
use deck::{DeckRefusal, Table, read_deck};

// The transcript at a place of a table.
fn store_place(table: &Table, place: usize, lists: TranscriptLists) -> Result<usize, DeckRefusal>
    requires { Columns table.now }
    ensures value { result ≡ placed (table_transcripts table.now) place }
    ensures lists_after { StoredIn (take 1 (drop place (table_transcripts table.now))) lists }
{
    let Some(rows) = table.transcripts().nth(place) else {
        return Err(DeckRefusal {
            refusal: Refusal::NoTranscript,
            record: 0,
        });
    };
    store_row(table, rows, lists);
    Ok(table.transcripts().count())
}

// The transcript at a place in chain order. Its scalars and lists are stored at the front of those lent, whose rest stays.
pub fn deck_transcript(
    bytes: &[u8],
    place: usize,
    lists: TranscriptLists,
) -> Result<usize, DeckRefusal>
    ensures value { result ≡ place_content bytes.now place }
    ensures lists_after { StoredIn (chosen bytes.now place) lists }
{
    let mut table = Table::empty();
    read_deck(bytes, &mut table)?;
    store_place(&table, place, lists)
}
