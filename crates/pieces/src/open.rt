// The opening of a listing: deck, then window, then calls are judged.
ghost use Rattle.std.specs.Prelude.{◌≡◌, ◌||◌};
ghost use Rattle.listing.specs.WindowFile.{bad_window_file, bad_call_file};
ghost use Rattle.listing.specs.Listing.{opening_by};
ghost use Rattle.deck.specs.code.Table.{empty_table};
ghost use Rattle.pieces.specs.code.TableIndex.{empty_index};
ghost use Rattle.pieces.specs.code.Opening.{opened_as};
ghost use Rattle.pieces.specs.code.Files.{opened_files};

use crate::index::index_table;
use crate::{ListingFiles, TableIndex};
use common::refusal::Refusal;
use deck::{DeckRefusal, Table, read_deck};

// 27: window file under 10 or over 65,536 bytes, call file over 65,536 bytes.
fn bad_files(files: ListingFiles) -> bool
    ensures { let f = files.entry in result ≡ (bad_window_file f.window.now || bad_call_file f.calls.now) }
{
    let window = files.window.len();
    window < 10 || 65536 < window || 65536 < files.calls.len()
}

fn judge(answer: Result<(), DeckRefusal>, files: ListingFiles) -> Result<(), DeckRefusal>
    ensures { let f = files.entry in result ≡ opening_by answer f.window.now f.calls.now }
{
    answer?;
    if bad_files(files) {
        return Err(DeckRefusal {
            refusal: Refusal::FileLength,
            record: 0,
        });
    }
    Ok(())
}

// What deck, window file and calls are judged to be; the deck's table, and its index if they are listed. Both come empty.
pub fn open_listing(
    files: ListingFiles,
    table: &mut Table,
    index: &mut TableIndex,
) -> Result<(), DeckRefusal>
    requires table_before { table.old ≡ empty_table }
    requires index_before { index.old ≡ empty_index }
    ensures { opened_as result table.new index.new ≡ opened_files files.entry }
{
    let answer = read_deck(files.deck, table);
    judge(answer, files)?;
    index_table(table, index);
    Ok(())
}
