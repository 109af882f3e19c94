// What `--help` prints.
use crate::write::Output;

// Whether a word asks for help.
pub(crate) fn is_help(word: &[u8]) -> bool {
    matches!(word, b"--help" | b"-h")
}

// What it reads and prints.
fn print_usage<T: Print, E: Print>(to: &Output<T, E>) -> bool {
    to.write_all(
        b"\
lister: where single-base calls fall in transcripts, and what follows from them\n\
\n\
usage: lister                 reads deck.bin and window.bin of this folder\n\
\x20      lister DECK WINDOW     reads the two files named\n\
\x20      lister --help          prints this text\n\
\n\
The calls come on standard input, one a line: chromosome position ref alt, with\n\
single spaces; positions count from 0. For each call, and for each transcript of\n\
the deck in its order, one line goes to standard output:\n\
\n\
\x20 line id 0 place exon intron CDS cDNA codon codons letters terms\n\
\x20 line id number      the call is refused for this transcript\n\
\x20 line 0 26           the line is no call\n\
\x20 0 record number     the deck is refused at this record; nothing else is printed\n\
\x20 0 0 27              the window or the calls are refused; nothing else is printed\n\
\n\
A column that does not apply is -. A file that is missing or cannot be read is\n\
taken as empty, and a failed write ends the run; standard error says why.\n",
    )
}

// Numbers that end the run.
fn print_deck<T: Print, E: Print>(to: &Output<T, E>) -> bool {
    to.write_all(
        b"\
\n\
A deck is refused by\n\
\x20  1  no exons or over 512, more segments than exons, over 64 selenocysteine bases\n\
\x20  2  start not below end, a coordinate over 1000000000, chromosome outside 1 to 25\n\
\x20  3  exons overlap or are not in strand order\n\
\x20  4  bounds that are not the outer exon edges (never in a deck)\n\
\x20  5  CDS bounds without segments, or CDS start not below end\n\
\x20  6  a phase over 2\n\
\x20  7  a first phase other than 0 where the start is complete\n\
\x20  8  a segment names a missing exon\n\
\x20  9  a second segment in one exon\n\
\x20 10  the first coding base lies in no exon\n\
\x20 11  the last coding base lies in no exon\n\
\x20 12  segments that are not the exons cut to the CDS\n\
\x20 13  a selenocysteine base in no segment\n\
\x20 22  a length of 0, no multiple of 16, or over 65536 bytes\n\
\x20 23  an unknown kind, a head elsewhere than record 0, unused bytes not zero\n\
\x20 24  a bad link (the linking record), or a record that no link reaches\n\
\x20 25  a head that links to no transcript\n",
    )
}

// Numbers of single calls and of the two other files.
fn print_calls<T: Print, E: Print>(to: &Output<T, E>) -> bool {
    to.write_all(
        b"\
\n\
A call is refused by\n\
\x20 14  a chromosome of call or window that is not the transcript's\n\
\x20 15  a position over the limit\n\
\x20 16  alt is not A, C, G or T, or equals ref\n\
\x20 17  a position outside the window\n\
\x20 18  ref differs from the window's byte\n\
\x20 19  a position over 5000 bases outside the transcript\n\
\x20 21  a base of the codon outside the window\n\
\x20 26  a line of another shape, or without its newline\n\
\x20 27  calls over 65536 bytes; a window under 10 or over 65536 bytes\n\
\x20 28  a line longer than the buffer (never in this program)\n",
    )
}

// Prints all of it. After a write that failed nothing more is written.
pub(crate) fn print<T: Print, E: Print>(to: &Output<T, E>) {
    let _ = print_usage(to) && print_deck(to) && print_calls(to);
}
