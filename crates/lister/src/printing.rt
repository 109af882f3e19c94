// Printing a listing, piece after piece.
ghost use Rattle.std.specs.Prelude.{◌≡◌};
ghost use Rattle.pieces.specs.code.Opening.{opened_as};
ghost use Rattle.pieces.specs.code.Files.{opened_files};

use crate::write::Output;
use console::buffer;
use deck::{DeckRefusal, Table};
use listing::first;
use pieces::{ListingFiles, TableIndex, next_piece, open_listing};

// The pieces of an opened listing. The buffer holds the longest line, so none is refused.
fn print_pieces<T: Print, E: Print>(
    to: &Output<T, E>,
    files: ListingFiles,
    opening: Result<(), DeckRefusal>,
    table: &Table,
    index: &TableIndex,
)
    requires { opened_as opening table.now index.now ≡ opened_files files }
{
    let mut out = buffer::<65536>();
    let mut cursor = first();
    loop {
        let Ok(piece) = next_piece(files, opening, table, index, cursor, &mut out) else {
            return;
        };
        if !to.write_all(&out[..piece.length]) {
            return;
        }
        let Some(next) = piece.next else {
            return;
        };
        cursor = next;
    }
}

// The whole listing of the files.
pub(crate) fn print_listing<T: Print, E: Print>(to: &Output<T, E>, files: ListingFiles) {
    let mut table = Table::empty();
    let mut index = TableIndex::empty();
    let opening = open_listing(files, &mut table, &mut index);
    print_pieces(to, files, opening, &table, &index);
}
