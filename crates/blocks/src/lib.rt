// Blocks: their numbers and sums, and the stream that their contents make (document 01, "Blocks and the rule
// stream"; refusals 1 to 3).
#![tactic(auto)]

ghost use Rattle.std.specs.Prelude.{◌≡◌, Ok, ◌++◌, ◌+◌, ◌*◌, ◌/◌, ◌%◌, ◌≤◌, ◌<◌, length, drop};
ghost use Rattle.eb3.specs.Bytes.{words_in};
ghost use Rattle.eb3.specs.Blocks.{sums, plain_sums, block_right, blocks_right, stream, open_blocks, block_count};
ghost use Rattle.blocks.specs.Opening.{as_sums, edition_test, opening, counted, Eight};
ghost use Rattle.blocks.specs.declared.opened.Blocks.{Blocks};

use opened::Blocks;
use refusals::Refusal;
use words::word_at;

pub mod opened;

/// How many bytes a block has.
pub const BLOCK: usize = 512;

/// How many words of a block come after its two sums.
pub const CONTENT_WORDS: usize = 254;

/// How many words 8 blocks have after their sums.
pub const WORDS_OF_8: usize = 2032;

/// How many words 64 blocks have after their sums, the most blocks that there may be.
pub const WORDS_OF_64: usize = 16256;

// Both sums of a block, before or after their remainders are taken.
#[derive(Clone, Copy)]
pub struct Pair {
    pub a: u64,
    pub b: u64,
}

// A sum with the remainder of x: what x has above bit 32, added to what it has below. 2^32 is 255 * 16843009 + 1, so that
// taking 2^32 away and adding 1 keeps the remainder. A number below 2^32 stays as it is.
fn fold(x: u64) -> u64
    ensures { (result ≡ x / 4294967296 + x % 4294967296) × (result % 255 ≡ x % 255) }
{
    let high = x >> 32;
    high + (x - 4294967296 * high)
}

// The remainder by 255, by a product and a shift. With z = 255 * a + b and b < 255, and with 255 * 16843009 = 2^32 - 1, the
// product (z + 1) * 16843009 is 2^32 * a + ((b + 1) * 16843009 - a). While a is at most 16843009, the part in brackets is
// not negative, and it is below 2^32, since b + 1 is at most 255. So the shift by 32 leaves a, and z - 255 * a is b.
fn remainder_255(z: u64) -> u64
    requires { z < 4294967550 }
    ensures { result ≡ z % 255 }
{
    z - 255 * (((z + 1) * 16843009) >> 32)
}

// A sum brought under 255, without a branch or a division. Two folds bring any x below 2^32; a block's sums, at most
// 130,050 and 33,227,775, are below it from the start.
pub fn under_255(x: u64) -> u64
    ensures { result ≡ x % 255 }
{
    remainder_255(fold(fold(x)))
}

// What eight bytes add: to a, and to b besides eight times the a before them. In 16 bits, and with
// the weights 24 to 17, not 8 to 1 (no powers of two): so the compiler multiplies all eight at once.
// Stays written out: with the bytes added one by one in its place, the sums of 62 blocks take 1.19 times the instructions (123,166 for 103,132, callgrind);
// in a loop over the weights, an invariant would be of the first i products, where `Eight` names each byte.
fn eight(x: &[u8; 8]) -> Pair
    ensures { Eight x.now result }
{
    let w0 = x[0] as u16;
    let w1 = x[1] as u16;
    let w2 = x[2] as u16;
    let w3 = x[3] as u16;
    let w4 = x[4] as u16;
    let w5 = x[5] as u16;
    let w6 = x[6] as u16;
    let w7 = x[7] as u16;
    let a = w0 + w1 + w2 + w3 + w4 + w5 + w6 + w7;
    let c = 24 * w0 + 23 * w1 + 22 * w2 + 21 * w3 + 20 * w4 + 19 * w5 + 18 * w6 + 17 * w7;
    let b = c - 16 * a;
    Pair {
        a: a as u64,
        b: b as u64,
    }
}

// The sums over some more bytes, their remainders left for the end: eight bytes a turn, then one.
fn add_bytes(s: &[u8], from: Pair) -> Pair
    requires { (length s.now ≤ 512) × (from.a ≤ 510) × (from.b ≤ 1020) }
    ensures { as_sums result ≡ plain_sums (as_sums from) s.now }
{
    let mut a = from.a;
    let mut b = from.b;
    let (eights, rest) = s.as_chunks::<8>();
    for x in eights {
        let p = eight(x);
        b += 8 * a + p.b;
        a += p.a;
    }
    for y in rest {
        a += *y as u64;
        b += a;
    }
    Pair { a, b }
}

// The sums of a block: over bytes 0, 1 and 4 to the end.
fn sums_of(block: &[u8; 512]) -> Pair
    ensures { as_sums result ≡ sums block.now }
{
    let head = add_bytes(&block[0..2], Pair { a: 0, b: 0 });
    let whole = add_bytes(&block[4..], head);
    Pair {
        a: under_255(whole.a),
        b: under_255(whole.b),
    }
}

// Block i has its number and its sums.
fn check_block(block: &[u8; 512], i: usize) -> bool
    ensures { result ≡ block_right i block.now }
{
    if word_at(block, 0) as usize != i {
        return false;
    }
    let p = sums_of(block);
    block[2] as u64 == p.a && block[3] as u64 == p.b
}

// All whole blocks have.
fn check_blocks(rules: &[u8]) -> bool
    ensures { result ≡ blocks_right 0 (block_count rules.now) rules.now }
{
    let (blocks, _) = rules.as_chunks::<512>();
    blocks
        .iter()
        .enumerate()
        .all(|(i, block)| check_block(block, i))
}

// Of the stream, word 0 is the edition, and word 1 the number of blocks; in the file, two words come before them.
// Stays: n does not say how many of the bytes count; it is what the second word is compared with.
fn check_edition(rules: &[u8], n: usize) -> bool
    requires { 512 ≤ length rules.now }
    ensures { result ≡ edition_test rules.now n }
{
    word_at(rules, 2) == 1 && word_at(rules, 3) as usize == n
}

// Opens a file: 1 to 64 whole blocks, each with its number and sums, of this edition.
pub fn open(rules: &[u8]) -> Result<Blocks, Refusal>
    ensures answer { counted result ≡ opening rules.now (open_blocks rules.now) }
    ensures same_bytes { (file : Blocks) → result ≡ Ok file → file.bytes.now ≡ rules.now }
{
    let n = rules.len() / BLOCK;
    if rules.len() % BLOCK != 0 || !(1..=64).contains(&n) {
        return Err(Refusal::Length);
    }
    if !check_blocks(rules) {
        return Err(Refusal::Block);
    }
    if !check_edition(rules, n) {
        return Err(Refusal::Edition);
    }
    Ok(Blocks {
        bytes: rules,
        count: n,
    })
}

// The words of a content, little-endian.
fn decode(content: &[u8], words: &mut [u16])
    requires { length content.now ≡ 2 * length words.old }
    ensures { words.new ≡ words_in content.now }
{
    for (i, word) in words.iter_mut().enumerate() {
        *word = word_at(content, i);
    }
}

// The contents of n blocks, joined: the stream's words, before what the array held there.
// Stays, here and in admission, given and engine: that the words have room for the blocks is a fact of two values. The words are
// the caller's, who goes on with a part of them as a slice, so a struct of both would be taken apart at once.
// Stays, here and as admission's `admit_in`, with n beside the file: both are public, and ask less than a `Blocks` says.
pub fn join(rules: &[u8], words: &mut [u16], n: usize)
    requires { (length rules.now ≡ 512 * n) × (254 * n ≤ length words.old) × (n ≤ 64) }
    ensures { words.new ≡ stream rules.now ++ drop (254 * n) words.old }
{
    for i in 0..n {
        decode(
            &rules[BLOCK * i + 4..BLOCK * i + BLOCK],
            &mut words[CONTENT_WORDS * i..CONTENT_WORDS * i + CONTENT_WORDS],
        );
    }
}
