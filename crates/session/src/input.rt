// Standard input: the blocks of a rule set, then the numbers of moves, words of 16 bits (document 01, "Examples").
ghost use Rattle.std.specs.Prelude.{◌≡◌, ◌*◌, ◌≤◌, length, take};
ghost use Rattle.session.specs.Reading.{blocks_read};

use std::io::{Read, Stdin};
use words::word_at;

// Reads until the buffer is full, the input ends or a read fails, and answers how many bytes it put at the buffer's start. A failed
// read counts as the end of the input. An empty buffer is not read into.
// Stays a `while`: the count grows by what each read gives, so there is no range to go through.
fn read_full(input: &mut Stdin, buffer: &mut [u8]) -> usize
    ensures within { result ≤ length buffer.new }
    ensures taken { result ≡ length (take result buffer.new) }
{
    let mut done = 0;
    while done < buffer.len() {
        match input.read(&mut buffer[done..]) {
            Ok(0) => return done,
            Ok(n) => done = done + n,
            Err(_) => return done,
        }
    }
    done
}

// How many bytes a rule set has whose second word, the number of its blocks, is this.
#[tactic(auto, unfolding(crate::specs::Reading::blocks_read))]
fn rules_length(blocks: u16) -> usize
    ensures { (result ≡ 512 * blocks_read blocks) × (512 ≤ result) × (result ≤ 32768) }
{
    match blocks {
        1..=64 => 512 * usize::from(blocks),
        _ => 512,
    }
}

// The blocks, or as much of them as the input has.
pub fn read_rules<'a>(input: &mut Stdin, file: &'a mut [u8; 32768]) -> &'a [u8]
    ensures { length result.now ≤ 32768 }
{
    let first = read_full(input, &mut file[..512]);
    if first < 512 {
        return &file[..first];
    }
    let end = rules_length(word_at(file, 3));
    let rest = read_full(input, &mut file[512..end]);
    &file[..512 + rest]
}

// The number of a move, where there is one more. An odd last byte is no number.
pub fn read_number(input: &mut Stdin) -> Option<u16> {
    let mut pair = [0u8; 2];
    if read_full(input, &mut pair) < 2 {
        return None;
    }
    Some(u16::from_le_bytes(pair))
}
