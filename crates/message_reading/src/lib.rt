// One message read whole, event by event, from any filled slots. Its `pub` is for sister crates only: day_pass reads
// a day's messages.
// Read specs/Agree first: it ties the workspace and the memory to the reading of the rules, event by event; then
// specs/Outcomes, what a message leaves.
#![tactic(auto)]

ghost use Rattle.std.specs.Prelude.{◌≤◌, length};
ghost use Rattle.rules.specs.Run.{workspace_width};
ghost use Rattle.book_plan.specs.Plan.{meaning_in};
ghost use Rattle.memory_index.specs.Index.{Indexed};
ghost use Rattle.message_levels.specs.Level.{HasLevel};
ghost use Rattle.message_reading.specs.Outcomes.{CanRead, ReadFrom, ReadMessage};

use book_plan::Plan;
use memory_ask::Counts;
use memory_index::SlotIndex;
use message_events::Reader;
use refusals::Refused;

// What a message came to: read, or refused at a place; and the counts after it.
#[derive(Clone, Copy, Debug, PartialEq, Eq)]
pub struct Ended {
    pub read: Result<(), Refused>,
    pub counts: Counts,
}

// The events from the reader's place on. A refused event leaves the reader at its place.
fn read_on(
    s: &mut Reader,
    body: &[u8],
    plan: &Plan,
    index: &mut SlotIndex,
    memory: &mut [u64],
    workspace: &mut [u64],
) -> Result<(), Refused>
    requires can_read { CanRead index.old memory.old body.now s.old.counts }
    requires place_inside { (s.old.place ≤ length body.now) × HasLevel workspace.old s.old.depth }
    ensures read_from { ReadFrom body.now (meaning_in plan.now) workspace.old memory.old s.old
        (record { read = result; counts = s.new.counts }) workspace.new memory.new }
    ensures indexed { Indexed index.new memory.new s.new.counts.filled }
{
    // Events of any size, as many as the body has: no count, a while.
    while s.place < body.len() {
        *s = message_step::step(*s, body, plan, index, memory, workspace)?;
    }
    message_finish::finish(*s, body, workspace)
}

// A message, from the root's level on.
pub fn read(
    body: &[u8],
    plan: &Plan,
    index: &mut SlotIndex,
    memory: &mut [u64],
    workspace: &mut [u64],
    counts: Counts,
) -> Ended
    requires can_read { CanRead index.old memory.old body.now counts }
    requires levels_lent { workspace_width ≤ length workspace.old }
    ensures read_message { ReadMessage body.now (meaning_in plan.now) workspace.old memory.old counts
        result workspace.new memory.new }
    ensures indexed { Indexed index.new memory.new result.counts.filled }
{
    message_levels::open_at(workspace, 0, 0);
    let mut s = Reader {
        place: 0,
        depth: 0,
        counts,
    };
    let read = read_on(&mut s, body, plan, index, memory, workspace);
    Ended {
        read,
        counts: s.counts,
    }
}
