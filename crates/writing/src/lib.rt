// Words written into lent byte buffers, little-endian (document 01, "Values and conditions": a word is 16 bits,
// little-endian; "Operations").
#![tactic(auto)]

ghost use Rattle.std.specs.Prelude.{◌≡◌, List, [], ◌∷◌};
ghost use Rattle.writing.specs.Wrote.{Wrote};

// One word at the front, if it fits.
pub fn put_word(w: u16, out: &mut [u8]) -> bool
    ensures { Wrote (w ∷ []) out.old out.new result }
{
    put_words(&[w], out)
}

// Words at the front, if they fit.
// Stays a bool, here and above: it says whether there was room, which callers test by `if` or need not know; none hands it on by `?`.
pub fn put_words(src: &[u16], out: &mut [u8]) -> bool
    ensures { Wrote src.now out.old out.new result }
{
    if out.len() / 2 < src.len() {
        return false;
    }
    for (i, w) in src.iter().enumerate() {
        let [low, high] = w.to_le_bytes();
        out[2 * i] = low;
        out[2 * i + 1] = high;
    }
    true
}
