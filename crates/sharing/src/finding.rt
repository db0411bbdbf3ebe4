// Where move k of a shared term takes place (document 01, "Moves, in order"): the parts are in the order of their moves, so that one walk over few words
// finds it.
// Stays: that words are at most 65,535 is a clause of each function here, for the reason in successors (docs/DESIGN-PASS.md, "A struct for words").
ghost use Rattle.std.specs.Prelude.{◌≡◌, ◌+◌, ◌≤◌, ◌<◌, [], ◌∷◌, length};
ghost use Rattle.derivation.specs.Lending.{Kept, Over};
ghost use Rattle.sharing.specs.Finding.{Found, PartFound};
ghost use Rattle.sharing.specs.Walking.{found_in};

use super::seeking::seek;
use code_numbers::{DONE, PARALLEL, SEQUENCE};
use derivation::{Arrays, Walked};
use words::{behind, first, last};

// The answers here are those of derivation; where the place of the move is found, `left` is how many words are left where it begins.

// How many words are left where a place begins, and after it.
#[derive(Clone, Copy)]
struct Place {
    here: usize,
    behind: usize,
}

// In the part with this word, which moves in this place.
// Stays, here and below: the words are a parameter, with their bound as a clause: most calls are handed other words. u is the same in all of them: beside
// `Arrays` it is one parameter more, where a struct of both would be named in every clause.
// Stays: that the arrays stay the same (`Kept`) is a fact of what they were and what they are then, which no field of a struct holds.
fn find_part(u: &[u16], w: usize, place: Place, arrays: &mut Arrays) -> Walked
    requires { (length u.now ≤ 65503) × (place.here ≤ 65535) × (place.behind ≤ place.here) }
    ensures kept { Kept arrays.old arrays.new }
    ensures found { Over (PartFound u.now w place.here place.behind) arrays.old.k arrays.old arrays.new (found_in arrays.new result) }
{
    // never for the word of a part
    if w < 32 {
        return Walked::Full;
    }
    let r = seek(last(u, w - 32), arrays);
    match r {
        Walked::Found => {
            arrays.left = place.here;
            Walked::Found
        }
        Walked::Passed => {
            arrays.left = place.behind;
            Walked::Passed
        }
        Walked::Full => Walked::Full,
    }
}

#[cycle(finding)]
pub fn find(u: &[u16], s: &[u16], arrays: &mut Arrays) -> Walked
    requires { (length u.now ≤ 65503) × (length s.now ≤ 65535) }
    ensures kept { Kept arrays.old arrays.new }
    ensures found { Over (Found u.now s.now) arrays.old.k arrays.old arrays.new (found_in arrays.new result) }
{
    let w = first(s);
    let t = behind(s);
    match w {
        SEQUENCE => find_then(u, t, arrays),
        PARALLEL => find_beside(u, t, arrays),
        DONE => arrays.passing(t.len()),
        _ => {
            let place = Place {
                here: s.len(),
                behind: t.len(),
            };
            find_part(u, w, place, arrays)
        }
    }
}

// After its code: the part that follows, and what it follows. That part moves once what it follows is done.
#[cycle(finding)]
fn find_then(u: &[u16], t: &[u16], arrays: &mut Arrays) -> Walked
    requires { (length u.now ≤ 65503) × (length t.now < 65535) }
    ensures kept { Kept arrays.old arrays.new }
    ensures found { Over (Found u.now (22 ∷ t.now)) arrays.old.k arrays.old arrays.new (found_in arrays.new result) }
{
    let q = behind(t);
    if first(q) == DONE {
        let place = Place {
            here: t.len() + 1,
            behind: behind(q).len(),
        };
        return find_part(u, first(t), place, arrays);
    }
    find(u, q, arrays)
}

// After its code: two terms, the second's moves after the first's; or one move where both are done.
// Stays without `both_done` of `listing`, which promises something of the words of two terms only: these are of shared terms, whose parts are single words.
#[cycle(finding)]
fn find_beside(u: &[u16], t: &[u16], arrays: &mut Arrays) -> Walked
    requires { (length u.now ≤ 65503) × (length t.now < 65535) }
    ensures kept { Kept arrays.old arrays.new }
    ensures found { Over (Found u.now (25 ∷ t.now)) arrays.old.k arrays.old arrays.new (found_in arrays.new result) }
{
    if first(t) == DONE && first(behind(t)) == DONE {
        if arrays.k == 0 {
            arrays.left = t.len() + 1;
            // no path leads to it
            arrays.at = 0;
            return Walked::Found;
        }
        arrays.k = arrays.k - 1;
        return arrays.passing(behind(behind(t)).len());
    }
    let l = find(u, t, arrays);
    match l {
        Walked::Found => l,
        Walked::Passed => find(u, last(t, arrays.left), arrays),
        Walked::Full => Walked::Full,
    }
}
