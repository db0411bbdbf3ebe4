// What Present and Move ask for: an event is read, a number is as it is (document 01, "Operations"; refusal 11).
ghost use Rattle.std.specs.Prelude.{◌≡◌};
ghost use Rattle.eb3.specs.RuleSets.{RuleSet};
ghost use Rattle.eb3.specs.WellFormedness.{Form};
ghost use Rattle.eb3.specs.Operations.{event_in};
ghost use Rattle.declarations.specs.Declaring.{Declares};
ghost use Rattle.given.specs.Asking.{asked_as, event_asked};

use cells::load;
use events::given_event;
use words::front;

/// What is asked for: the move of a number, or the first move whose action is the event in these bytes.
#[derive(Clone, Copy)]
pub enum Request<'a> {
    Move(usize),
    Event(&'a [u8]),
}

/// What is looked for among the moves: the one of a number, or the first with the action of a number.
#[derive(Clone, Copy)]
pub enum Wanted {
    Number(usize),
    Action(u32),
}

// The event's action, or none where it is no event of this rule set. An event has at most six words: a code, a label, and
// two for each of two arguments.
// Stays, though `check_term` of giving.rt begins in the same way: a function for both would answer how many words were loaded, or none, and its contract
// would have to say when there are none, which words are loaded else, and that the lent array keeps its length: more than the few statements that both have.
fn read_event(tb: &[u32], event: &[u8]) -> Option<Wanted>
    ensures { (R : RuleSet) → Form R → Declares tb.now R → result ≡ event_asked (event_in R event.now) }
{
    if event.len() % 2 != 0 {
        return None;
    }
    let n = event.len() / 2;
    if 6 < n {
        return None;
    }
    let mut es = [0u16; 6];
    load(event, &mut es, 0, n);
    let code = given_event(front(&es, n), tb)?;
    Some(Wanted::Action(code))
}

// What is asked for, with the event read; none where the event is none.
pub fn ask(tb: &[u32], request: Request) -> Option<Wanted>
    ensures { (R : RuleSet) → Form R → Declares tb.now R → result ≡ asked_as request.entry R }
{
    match request {
        Request::Move(k) => Some(Wanted::Number(k)),
        Request::Event(event) => read_event(tb, event),
    }
}
