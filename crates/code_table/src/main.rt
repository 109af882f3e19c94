// Holds the letters of the crate codon against NCBI's genetic code tables 1 and 2, which are on standard input one behind the other: 64
// rows for each, one for each column of the lines AAs, Base1, Base2 and Base3 that
// https://www.ncbi.nlm.nih.gov/Taxonomy/Utils/wprintgc.cgi publishes, as three bases, a space and the letter. Writes for each table the
// codons, and the codons with one base replaced, that have another letter, and how many there are.
#![tactic(auto)]

ghost use Rattle.std.specs.Prelude.{◌<◌, ◌≤◌, length};

use codon::{Codon, GeneticCode, build_alt_codon, translate_altered_codon, translate_codon};
use console::{print, print_decimal, read_full};
use std::io::Read;

const BASES: [u8; 4] = *b"ACGT";

// A row: three bases, a space, the letter and a newline.
type Row = [u8; 6];

fn codon_of(row: &Row) -> Codon {
    Codon {
        len: 3,
        first: row[0],
        second: row[1],
        third: row[2],
    }
}

// The letter published for a codon, `?` where no row has it.
fn published_letter(rows: &[Row], c: Codon) -> u8 {
    rows.iter()
        .find(|row| codon_of(row) == c)
        .map_or(b'?', |row| row[4])
}

// Whether the codon of a row has another letter, which is then written.
fn codon_differs(rt: &impl Print, row: &Row, code: GeneticCode) -> bool {
    let c = codon_of(row);
    let letter = translate_codon(code, c);
    let published = row[4];
    if letter == published {
        return false;
    }
    let line = [
        c.first, c.second, c.third, b' ', published, b' ', letter, b'\n',
    ];
    print(rt, &line);
    true
}

// Whether a codon with a base put in at a place has another letter, which is then written.
fn altered_differs(
    rt: &impl Print,
    rows: &[Row],
    code: GeneticCode,
    c: Codon,
    place: u8,
    base: u8,
) -> bool
    requires { place < 3 }
{
    let letter = translate_altered_codon(code, c, place, base);
    let published = published_letter(rows, build_alt_codon(c, place, base));
    if letter == published {
        return false;
    }
    let line = [
        c.first,
        c.second,
        c.third,
        b' ',
        b'0' + place,
        b' ',
        base,
        b' ',
        published,
        b' ',
        letter,
        b'\n',
    ];
    print(rt, &line);
    true
}

// How many codons have another letter.
fn codon_differences(rt: &impl Print, rows: &[Row], code: GeneticCode) -> u64 {
    let mut count: u64 = 0;
    for row in rows {
        count += u64::from(codon_differs(rt, row, code));
    }
    count
}

// How many codons of the first n rows, with one base replaced, 12 for each, have another letter.
fn altered_differences(rt: &impl Print, rows: &[Row], n: usize, code: GeneticCode) -> u64
    requires { (n ≤ length rows.now) × (length rows.now ≤ 64) }
{
    let mut count: u64 = 0;
    for row in &rows[..n] {
        for place in 0..3 {
            for base in BASES {
                let differs = altered_differs(rt, rows, code, codon_of(row), place, base);
                count += u64::from(differs);
            }
        }
    }
    count
}

fn write_count(rt: &impl Print, table: u64, n: usize, what: &[u8], differ: u64) {
    print(rt, b"table ");
    print_decimal(rt, table);
    print(rt, b": ");
    print_decimal(rt, n as u64);
    print(rt, what);
    print_decimal(rt, differ);
    print(rt, b" differ\n");
}

// A code against the next 64 rows, those of the table of that number. Whole rows are counted; letters are sought in all 64.
fn check_table(rt: &impl Print, input: &mut impl Read, table: u64, code: GeneticCode) {
    let mut bytes = [0u8; 384];
    let n = read_full(input, &mut bytes) / 6;
    let (rows, _) = bytes.as_chunks::<6>();
    let codons = codon_differences(rt, &rows[..n], code);
    write_count(rt, table, n, b" codons, ", codons);
    let altered = altered_differences(rt, rows, n, code);
    write_count(rt, table, n * 12, b" altered codons, ", altered);
}

fn main(rt: HostRuntime) {
    let mut input = rt.stdin();
    check_table(&rt, &mut input, 1, GeneticCode::Standard);
    check_table(&rt, &mut input, 2, GeneticCode::VertebrateMitochondrial);
}
