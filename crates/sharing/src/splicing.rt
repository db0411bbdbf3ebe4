// Words put in the place of others within the first words of an array (document 01, "Moves, in order": the term of the next state).
// Stays: that words are at most 65,535 is a clause of each function here, for the reason in successors (docs/DESIGN-PASS.md, "A struct for words").
ghost use Rattle.std.specs.Prelude.{◌≡◌, ◌+◌, ◌≤◌, length};
ghost use Rattle.sharing.specs.Beginning.{put_at};
ghost use Rattle.sharing.specs.Splicing.{Spliced};

// All words of one array into another, from a place on.
// Stays: the place is beside the array, since the contract says of the whole array what it is then.
// Stays word by word: copy_from_slice of a length that is not fixed, between lent arrays, becomes memmove, and the library promises C hosts to call memcpy and
// memset only (host/eb3.h, Linking).
pub fn copy_words(src: &[u16], dst: &mut [u16], at: usize)
    requires { at + length src.now ≤ length dst.old }
    ensures { dst.new ≡ put_at at src.now dst.old }
{
    for i in 0..src.len() {
        dst[at + i] = src[i];
    }
}

// Of the first n words of d those from i to e, by the first k words of mid; what comes after them moves by way of mid, if it moves at all.
// Stays by way of mid: copy_within calls memmove, as above.
// Stays with n, i, e and k: it is public, and its contract says of the whole array what it is then, as that of copy_words does.
// How many words there are then, or None where there is no room.
pub fn splice(
    d: &mut [u16],
    n: usize,
    i: usize,
    e: usize,
    mid: &mut [u16],
    k: usize,
) -> Option<usize>
    requires { (length d.old ≤ 65535) × (length mid.old ≤ 65535) × (n ≤ 65535) × (e ≤ 65535) × (i ≤ 65535) × (k ≤ 65535) }
    ensures { Spliced d.old mid.old n i e k d.new mid.new result }
{
    if n < e {
        return None;
    }
    if e < i {
        return None;
    }
    if d.len() < n {
        return None;
    }
    let all = k + (n - e);
    if d.len() < i + all {
        return None;
    }
    if mid.len() < all {
        return None;
    }
    if e == i + k {
        copy_words(&mid[..k], d, i);
        return Some(n);
    }
    copy_words(&d[e..n], mid, k);
    copy_words(&mid[..all], d, i);
    Some(i + all)
}
