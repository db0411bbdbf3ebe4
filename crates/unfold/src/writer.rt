// The words written so far into a lent buffer (document 01, "Unfolding, size and breadth"). In a file of its own, since clauses of the other
// files name it.
ghost use Rattle.std.specs.Prelude.{◌≡◌, ◌+◌, ◌*◌, ◌≤◌, [], ◌∷◌, length};
ghost use Rattle.unfold.specs.Written.{written_from};

#[derive(Drop)]
pub struct Writer<'a> {
    // Room for up to 65,535 words: no unfolding within the limits has more.
    pub bytes: &'a mut [u8],
    // How many words are written.
    pub at: usize,
    pub ghost short: { length bytes.now ≤ 131070 },
    pub ghost room: { 2 * at ≤ length bytes.now },
}

// One word at a place with room for it.
// Stays beside writing's put_words, which tests for room itself: `head` tests once for a code and its words together.
// Stays with the place, and not the part of the buffer lent: the contract says of the whole buffer what it is then.
fn put(w: u16, bytes: &mut [u8], at: usize)
    requires { 2 * at + 2 ≤ length bytes.old }
    ensures { bytes.new ≡ written_from at (w ∷ []) bytes.old }
{
    let k = 2 * at;
    bytes[k..k + 2].copy_from_slice(&w.to_le_bytes());
}

impl Writer<'_> {
    ghost use Rattle.unfold.specs.Puts.{Heads};

    // A code and the words that go with it, where there is room for them.
    pub fn head(&mut self, c: u16, ms: &[u16]) -> Option<()>
        ensures { Heads (c ∷ ms.now) self.old self.new result }
    {
        let at = self.at;
        let end = at + 1 + ms.len();
        if self.bytes.len() / 2 < end {
            return None;
        }
        let bytes = &mut *self.bytes;
        put(c, bytes, at);
        for (i, w) in ms.iter().enumerate() {
            put(*w, bytes, at + 1 + i);
        }
        self.at = end;
        Some(())
    }
}
