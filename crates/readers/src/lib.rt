// Counts by card reader (document 02, K1): one number more is counted at its reader, and what a run has counted is added to the table that
// a host lends, a record for each reader.
#![tactic(auto)]

ghost use Rattle.std.specs.Prelude.{◌≡◌, ℕ, ◌+◌, ◌*◌, ◌%◌, ◌<◌, ◌≤◌, true, length, slice_index, slice_index_or};
ghost use Rattle.eb3.specs.Bytes.{words_in, doubles_in};
ghost use Rattle.eb3.specs.Readers.{increased};
ghost use Rattle.readers.specs.Table.{none, Of32Bits, plus as sums, added_to, counts_at, added_first, records, place_of, one_more};
ghost use Rattle.readers.specs.Placing.{put_number, put_record, put_first};

pub mod list;

// How many card readers there are, and records in a table.
const READERS: usize = 32;
/// How many numbers a run counts in: three for each reader.
pub const COUNTS: usize = 3 * READERS;

#[derive(Clone, Copy, Default, PartialEq)]
pub struct Counts {
    pub visible: u32,
    pub internal: u32,
    pub refused: u32,
}

// The sums of two records, each number modulo 4,294,967,296.
// Stays field by field: each field is a sum, and nothing is taken over as it is.
fn plus(c: Counts, d: Counts) -> Counts
    ensures { result ≡ sums c d }
{
    Counts {
        visible: c.visible.wrapping_add(d.visible),
        internal: c.internal.wrapping_add(d.internal),
        refused: c.refused.wrapping_add(d.refused),
    }
}

// Adds to one record of a lent table; the others are kept.
// Stays, here and below: the index of a record, which is counted from 0 where readers are from 1, is a usize with its bound as a clause.
pub fn add_to(table: &mut [Counts], index: usize, more: Counts)
    requires { index < length table.old }
    ensures { table.new ≡ added_to table.old index more }
{
    table[index] = plus(table[index], more);
}

// ── what a run counts: three numbers a reader, in the order of a record ──

// What a number did.
#[derive(Clone, Copy)]
pub enum Outcome {
    Visible,
    Internal,
    Refused,
}

impl Outcome {
    // The place of its count in a record.
    fn place(self) -> usize
        ensures { (result ≡ place_of self) × (result < 3) }
    {
        self as usize
    }
}

// One more of an outcome, at the reader whose record has this index.
pub fn count_one(by_reader: &mut [u32; COUNTS], index: usize, outcome: Outcome)
    requires { index < 32 }
    ensures { by_reader.new ≡ one_more by_reader.old index (place_of outcome) }
{
    let at = 3 * index + outcome.place();
    by_reader[at] = by_reader[at].wrapping_add(1);
}

fn counts_at(by_reader: &[u32; COUNTS], index: usize) -> Counts
    requires { index < 32 }
    ensures { result ≡ counts_at by_reader.now index }
{
    let at = 3 * index;
    Counts {
        visible: by_reader[at],
        internal: by_reader[at + 1],
        refused: by_reader[at + 2],
    }
}

// Nothing was counted.
fn idle(c: Counts) -> bool
    ensures { result ≡ true → c ≡ none }
{
    c == Counts::default()
}

// What was counted at each reader, added to its record.
fn add_all(mut table: [Counts; READERS], by_reader: &[u32; COUNTS]) -> [Counts; READERS]
    requires { (r : ℕ) → Of32Bits (slice_index_or table r none) }
    ensures { result ≡ added_first 32 by_reader.now table }
{
    for i in 0..READERS {
        let more = counts_at(by_reader, i);
        if !idle(more) {
            add_to(&mut table, i, more);
        }
    }
    table
}

// ── a host's table: numbers of four bytes, low byte first ──

// Stays: a slice, with the length of 32 records as a fact: a host lends it, it may be longer, and the functions below are handed it whole.

// Number i of a table.
fn read_number(table: &[u8], i: usize) -> u32
    requires { (4 * i + 4 ≤ length table.now) × (i < 96) }
    ensures { result ≡ slice_index (doubles_in (words_in table.now)) i }
{
    let at = 4 * i;
    u32::from_le_bytes([table[at], table[at + 1], table[at + 2], table[at + 3]])
}

// Stays beside counts_at: one function for both would be lent a closure that reads number i, of a host's bytes or of what a run has counted, and what each
// closure answers would have to be a clause: more than three fields.
fn read_record(table: &[u8], index: usize) -> Counts
    requires { (index < 32) × (384 ≤ length table.now) }
    ensures { result ≡ counts_at (doubles_in (words_in table.now)) index }
{
    let at = 3 * index;
    Counts {
        visible: read_number(table, at),
        internal: read_number(table, at + 1),
        refused: read_number(table, at + 2),
    }
}

fn read_records(table: &[u8]) -> [Counts; READERS]
    requires { 384 ≤ length table.now }
    ensures { result ≡ records 32 (doubles_in (words_in table.now)) }
{
    let mut t = [Counts::default(); READERS];
    for i in 0..READERS {
        t[i] = read_record(table, i);
    }
    t
}

// Stays beside unfold's `put`, of words: both are std's `to_le_bytes` and a copy with a name, so that a contract says once what is written.
fn write_number(table: &mut [u8], i: usize, n: u32)
    requires { (4 * i + 4 ≤ length table.old) × (i < 96) }
    ensures { (table.new ≡ put_number table.old i n) × (length table.new ≡ length table.old) }
{
    let at = 4 * i;
    table[at..at + 4].copy_from_slice(&n.to_le_bytes());
}

fn write_record(table: &mut [u8], index: usize, c: Counts)
    requires { (index < 32) × (384 ≤ length table.old) }
    ensures { (table.new ≡ put_record table.old index c) × (length table.new ≡ length table.old) }
{
    let at = 3 * index;
    write_number(table, at, c.visible);
    write_number(table, at + 1, c.internal);
    write_number(table, at + 2, c.refused);
}

fn write_records(table: &mut [u8], t: [Counts; READERS])
    requires { 384 ≤ length table.old }
    ensures { table.new ≡ put_first 32 t table.old }
{
    for i in 0..READERS {
        write_record(table, i, t[i]);
    }
}

// What a run has counted, added to a host's table of 32 records or more: what comes after them is kept.
// Stays by records, through `add_to`: document 01 names for K1 a lent slice of count structs with one thin function that adds to one record.
pub fn add_table(table: &mut [u8], by_reader: &[u32; COUNTS])
    requires { 384 ≤ length table.old }
    ensures { table.new ≡ increased by_reader.now table.old }
{
    let t = read_records(table);
    let u = add_all(t, by_reader);
    write_records(table, u);
}
