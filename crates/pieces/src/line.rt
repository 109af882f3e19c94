// The lines of the calls from a cursor on, put into a lent buffer.
ghost use Rattle.std.specs.Prelude.{◌≡◌, ◌≤◌, length, drop};
ghost use Rattle.deck.specs.code.Table.{table_transcripts};
ghost use Rattle.consequence.specs.Window.{window_of};
ghost use Rattle.listing.specs.WindowFile.{window_of as file_window};
ghost use Rattle.listing.specs.Pieces.{steps_at, pack, piece_to};
ghost use Rattle.pieces.specs.code.Filling.{filled_as};

use crate::ListingFiles;
use crate::opened::{OpenedDeck, Sources};
use crate::parsed::fill_parsed;
use codon::altered_letters;
use common::little::{u16_at, u64_at};
use consequence::Window;
use listing::{Cursor, Piece, line_end, line_number, parse_call};

// The bases of a window file.
fn bases_of(window: &[u8]) -> &[u8]
    ensures { result.now ≡ drop 10 window.now }
{
    if window.len() < 10 {
        return &window[..0];
    }
    &window[10..]
}

// The window of a window file.
#[tactic(auto, unfolding(listing::specs::WindowFile::window_of))]
fn window_in(window: &[u8]) -> Window
    ensures { window_of result ≡ file_window window.now }
{
    Window {
        chromosome: u16_at(window, 0),
        first: u64_at(window, 2),
        bytes: bases_of(window),
    }
}

// The lines of the calls from the cursor on. The letters of both genetic codes are laid out here, once for a piece.
// No `for`: the position moves by each line's length, and the cursor of the line that does not fit has that position.
pub(crate) fn fill_lines(
    files: ListingFiles,
    deck: OpenedDeck,
    cursor: Cursor,
    out: &mut [u8],
) -> Piece
    requires { length files.calls.now ≤ 65536 }
    ensures { let ts = table_transcripts deck.entry.table.now in
        let p = pack (length out.old) (steps_at ts (file_window files.entry.window.now) files.entry.calls.now cursor) in
        (result ≡ filled_as p) × (out.new ≡ piece_to out.old p) }
{
    let both = altered_letters();
    let calls = files.calls;
    let window = window_in(files.window);
    let sources = Sources {
        deck,
        window: &window,
        both: &both,
    };
    let mut at = cursor.at;
    let mut entry = cursor.entry;
    let mut number = line_number(calls, at);
    let mut filled = 0;
    while at < calls.len() {
        let to = line_end(calls, at);
        let put = fill_parsed(
            sources,
            parse_call(&calls[at..to]),
            number,
            Cursor { at, entry },
            &mut out[filled..],
        );
        filled += put.length;
        if let Some(next) = put.next {
            return Piece {
                length: filled,
                next: Some(next),
            };
        }
        at = to;
        entry = 0;
        number += 1;
    }
    Piece {
        length: filled,
        next: None,
    }
}
