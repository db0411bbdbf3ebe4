// How many moves a running term has, and which is the first with a given action (document 01, "Operations": Count, Present). A list
// of moves takes at most twice the breadth, but mostly far less: few numbers are tried first, so that a small term does not pay
// for clearing a large array.
// Stays: that words are at most 65,535 is a clause of each function here, for the reason in successors (docs/DESIGN-PASS.md, "A struct for words").
ghost use Rattle.std.specs.Prelude.{◌≡◌, ℕ, ◌≤◌, ◌==◌, length};
ghost use Rattle.std.specs.List.{position};
ghost use Rattle.std.specs.Fn.{FnReturnsAt};
ghost use Rattle.eb3.specs.Scopes.{Scope};
ghost use Rattle.eb3.specs.Terms.{Term, Action};
ghost use Rattle.eb3.specs.Moves.{moves, first_with};
ghost use Rattle.actions.specs.Codes.{action_code, Small};
ghost use Rattle.listing.specs.Listing.{holding};
ghost use Rattle.steps.specs.Counting.{Whole, Made, MadeOfAll, found_at};

use listing::list;

// What is made of the numbers of the moves' actions, or None where they take more than N numbers.
// Stays a function that only makes an array and asks: not put into its caller, so that a call with few numbers does not pay for a frame with many.
// Stays, here and in moving.rt: the bound of N is a clause of a const parameter, which each call gives as a number: the check finds it there.
// Stays, here and in of_moves: that the closure may always be called is what every call of one asks, and no type says it.
#[inline(never)]
fn listed<const N: usize, R, F: Fn(&[u32]) -> R>(s: &[u16], m: &[u16], then: F) -> Option<R>
    requires room { (length s.now ≤ 65535) × (N ≤ 131072) }
    requires callable { F.IsAlwaysCallable then }
    ensures { Made s.now m.now N (FnReturnsAt F.Fn then) result }
{
    let mut acts = [0u32; N];
    let moves = list(s, m, &mut acts)?;
    let count = moves.count;
    Some(then(&acts[..count]))
}

// The same, with as many numbers as it takes: few are tried first. Within the limits there is always room for all of them.
fn of_moves<R, F: Fn(&[u32]) -> R>(s: &[u16], m: &[u16], then: F) -> Option<R>
    requires short { length s.now ≤ 65535 }
    requires callable { F.IsAlwaysCallable then }
    ensures { MadeOfAll s.now m.now (FnReturnsAt F.Fn then) result }
{
    if let Some(made) = listed::<256, R, &F>(s, m, &then) {
        return Some(made);
    }
    if let Some(made) = listed::<4096, R, &F>(s, m, &then) {
        return Some(made);
    }
    listed::<131072, R, &F>(s, m, &then)
}

// How many moves a running term has.
pub fn count_moves(s: &[u16], m: &[u16]) -> usize
    requires { length s.now ≤ 65535 }
    ensures { (P : Scope) (E : Term) → Whole s.now P E → result ≡ length (moves (holding m.now) E) }
{
    of_moves(s, m, |acts| acts.len()).unwrap_or(0)
}

// The place of a number in a list.
fn seek(a: u32, acts: &[u32]) -> Option<usize>
    ensures { result ≡ position (λ x. x == a) acts.now }
{
    acts.iter().position(|act| *act == a)
}

// The number of the first move with this action, or None where no move has it.
pub fn first_move(s: &[u16], m: &[u16], code: u32) -> Option<usize>
    requires { length s.now ≤ 65535 }
    ensures { (P : Scope) (E : Term) → Whole s.now P E → (ρ : Action) → Small ρ → code ≡ action_code ρ → result ≡ found_at (first_with ρ (moves (holding m.now) E)) }
{
    of_moves(s, m, |acts| seek(code, acts)).unwrap_or(None)
}
