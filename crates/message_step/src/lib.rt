// One event of a message, by its kind byte. Its `pub` is for sister crates only: message_reading goes from event to
// event.
// Read specs/Kinds first: what an event of each kind does to all that is lent. Read next: message_finish.
#![tactic(auto)]

ghost use Rattle.std.specs.Prelude.{◌≡◌};
ghost use Rattle.book_plan.specs.Plan.{meaning_in};
ghost use Rattle.memory_ask.specs.Ask.{CanAsk};
ghost use Rattle.message_events.specs.Meant.{meant};
ghost use Rattle.message_events.specs.Step.{AtEvent, IndexedNext};
ghost use Rattle.message_step.specs.Kinds.{step_of};

use book_plan::Plan;
use memory_index::SlotIndex;
use message_events::Reader;
use refusals::{Refusal, Refused};

// One event, by its kind byte: the three numbers stand here alone, and an enum would say them twice. Plan, index and
// memory are lent one by one: a struct of references makes each contract longer.
pub fn step(
    s: Reader,
    body: &[u8],
    plan: &Plan,
    index: &mut SlotIndex,
    memory: &mut [u64],
    workspace: &mut [u64],
) -> Result<Reader, Refused>
    requires at_event { AtEvent body.now workspace.old s }
    requires can_ask { CanAsk index.old memory.old s.counts }
    ensures stepped { (meant result, workspace.new, memory.new)
        ≡ step_of body.now (meaning_in plan.now) workspace.old memory.old s }
    ensures indexed_next { IndexedNext index.new memory.new s.counts.filled (meant result) }
{
    match body[s.place] {
        1 => s.start(body, workspace),
        2 => s.text(body, plan, workspace),
        3 => s.end(body, plan, index, memory, workspace),
        _ => Err(s.refused(Refusal::BadKind)),
    }
}
