// Run's list (document 02, K1): each number is followed by a word, its reader. Refusal 13's test of it.
ghost use Rattle.std.specs.Prelude.{◌≡◌, ◌+◌, ◌%◌, ◌<◌};
ghost use Rattle.eb3.specs.Bytes.{words_in};
ghost use Rattle.eb3.specs.Readers.{all_read, reader? as is_reader, lets_through};

use words::word_at;

fn is_reader(r: u16) -> bool
    ensures { result ≡ is_reader r }
{
    (1..=32).contains(&r)
}

// Readers from 1, records from 0. Of a word that is no reader, some record; such a list is never counted.
pub fn place(r: u16) -> usize
    ensures { (result ≡ (r + 31) % 32) × (result < 32) }
{
    (usize::from(r) + 31) % 32
}

// No reader is missing, and each is 1 to 32.
// Stays a `for`: as `as_chunks::<4>` and `all` it was tried, and the proof did not find what the closure answers for an array of four bytes.
fn readers_right(list: &[u8]) -> bool
    ensures { result ≡ all_read (words_in list.now) }
{
    if list.len() / 2 % 2 != 0 {
        return false;
    }
    for i in 0..list.len() / 4 {
        if !is_reader(word_at(list, 2 * i + 1)) {
            return false;
        }
    }
    true
}

// Refusal 13's test: of all readers, and of the table, which has 32 whole records or more.
pub fn lets_through(list: &[u8], table: &[u8]) -> bool
    ensures { result ≡ lets_through list.now table.now }
{
    32 <= table.len() / 12 && readers_right(list)
}
