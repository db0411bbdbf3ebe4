// An event given to Present: one running leaf of the rule set, whose action has a number (document 01, "Operations"; refusal 11).
#![tactic(auto)]

ghost use Rattle.std.specs.Prelude.{◌≡◌};
ghost use Rattle.eb3.specs.RuleSets.{RuleSet};
ghost use Rattle.eb3.specs.WellFormedness.{Form};
ghost use Rattle.eb3.specs.TermReading.{given_event};
ghost use Rattle.declarations.specs.Declaring.{Declares};
ghost use Rattle.events.specs.Events.{event_as};

use actions::code_at;
use code_numbers::{ACTION, INTERNAL};
use term_check::given_term;
use words::{behind, first};

// The number of the event's action, or none where the words are no event of this rule set. A running term that begins with
// the code of a leaf is that leaf.
pub fn given_event(s: &[u16], tb: &[u32]) -> Option<u32>
    ensures { (R : RuleSet) → Form R → Declares tb.now R → result ≡ event_as (given_event R s.now) }
{
    given_term(s, tb)?;
    match first(s) {
        INTERNAL => Some(0),
        ACTION => Some(code_at(behind(s))),
        _ => None,
    }
}
