// Reading words from the front: how many words are left after what was read, or a refusal
// (document 01, "Operations": 4, 5 and 6 by the first offending word of the stream).
#![tactic(auto)]

ghost use Rattle.std.specs.Prelude.{◌≡◌, ℕ, ◌+◌, ◌*◌, ◌<◌, ◌≤◌, List, drop, get_or, length, take};
ghost use Rattle.eb3.specs.Bytes.{words_in};
ghost use Rattle.eb3.specs.Reading.{number_of, count_of};
ghost use Rattle.refusals.specs.Numbers.{number};
ghost use Rattle.words.specs.Checking.{checked, last_of, number_or, numbered};

pub mod repeats;

use refusals::Refusal;

// A word as a number.
// Stays, though no crate here calls it any more and today's form is a cast in place: a rule of the project, a public function keeps its promise.
pub fn wide(x: u16) -> usize
    ensures { (result ≡ x) × (result < 65536) }
{
    x as usize
}

// The first word, or 0 where there is none.
// Stays a usize with its bound as a fact: a rule of the project, a public function keeps its promise.
pub fn first(s: &[u16]) -> usize
    ensures { (result ≡ get_or s.now 0 0) × (result < 65536) }
{
    s.first().map_or(0, |&w| w as usize)
}

// The last n words; all of them where there are fewer.
// Stays with n, and so do `front` and `after`: this is what makes a slice of that many words.
#[tactic(auto, using(crate::specs::Laws::Checking::part), unfolding(crate::specs::Checking::last_of))]
pub fn last(s: &[u16], n: usize) -> &[u16]
    ensures { result.now ≡ last_of n s.now }
{
    &s[s.len().saturating_sub(n)..]
}

// The first n items; all of them where there are fewer.
pub fn front<T>(s: &[T], n: usize) -> &[T]
    ensures { result.now ≡ take n s.now }
{
    &s[..n.min(s.len())]
}

// The words after the first k; none where there are fewer.
pub fn after(s: &[u16], k: usize) -> &[u16]
    ensures { result.now ≡ drop k s.now }
{
    &s[k.min(s.len())..]
}

// The words after the first.
pub fn behind(s: &[u16]) -> &[u16]
    ensures { result.now ≡ drop 1 s.now }
{
    after(s, 1)
}

// Word i of bytes, the low byte first.
pub fn word_at(bytes: &[u8], i: usize) -> u16
    requires { 2 * i + 2 ≤ length bytes.now }
    ensures { result ≡ get_or (words_in bytes.now) i 0 }
{
    u16::from_le_bytes([bytes[2 * i], bytes[2 * i + 1]])
}

// One number below a limit; the first error where there is no word, and the second where the number is not below.
#[tactic(auto, using(crate::proofs::Cases::cases))]
pub fn number_or<E: Drop>(t: &[u16], missing: E, wrong: E, limit: usize) -> Result<usize, E>
    ensures { result ≡ number_or missing wrong limit t.now }
{
    match t {
        [] => Err(missing),
        [w, rest @ ..] if (*w as usize) < limit => Ok(rest.len()),
        _ => Err(wrong),
    }
}

// One number below a limit, else refused k, whatever number k is; 4 where there is no word.
// Stays, though no crate here calls it any more: a rule of the project, a public function keeps its promise.
#[tactic(auto, using(crate::specs::Laws::Reading::number_or_numbered))]
pub fn number(t: &[u16], k: u8, limit: usize) -> Result<usize, u8>
    ensures { result ≡ numbered (number_of k limit t.now) }
{
    number_or(t, 4, k, limit)
}

// One number below a limit, else this refusal.
#[tactic(auto, using(crate::specs::Laws::Reading::number_or_checked))]
pub fn number_or_refusal(t: &[u16], refusal: Refusal, limit: usize) -> Result<usize, Refusal>
    ensures { result ≡ checked (number_of (number refusal) limit t.now) }
{
    number_or(t, Refusal::Form, refusal, limit)
}

// A number from lo to hi, else refused 4.
#[tactic(auto, using(crate::proofs::Cases::cases))]
pub fn count(t: &[u16], lo: usize, hi: usize) -> Result<usize, Refusal>
    ensures { result ≡ checked (count_of lo hi t.now) }
{
    match t {
        [w, rest @ ..] if (lo..=hi).contains(&(*w as usize)) => Ok(rest.len()),
        _ => Err(Refusal::Form),
    }
}
