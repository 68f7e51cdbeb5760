// The ends of a message: whether one is allowed where it stands, and the question that it asks. Its `pub` is for sister
// crates only: message_events reads the event.
// The refusal is `end_refusal` of rules/specs/Message.antt; specs/Ends says what becomes of the workspace and the
// memory. Read next: message_events.
#![tactic(auto)]

ghost use Rattle.std.specs.Prelude.{◌≡◌, ◌<◌};
ghost use Rattle.rules.specs.Message.{end_refusal};
ghost use Rattle.refusals.specs.Numbers.{refused};
ghost use Rattle.book_plan.specs.Plan.{states_in};
ghost use Rattle.memory_index.specs.Index.{Indexed};
ghost use Rattle.memory_ask.specs.Ask.{carried_in, CanAsk};
ghost use Rattle.message_levels.specs.Level.{HasLevel, label_in};
ghost use Rattle.message_ends.specs.Ends.{close_of};

use book_plan::Plan;
use memory_ask::Counts;
use memory_index::SlotIndex;
use refusals::Refusal;

// 28; or level d may end with this label.
#[tactic(auto, using(crate::specs::Ends::refusal_laws))]
pub fn end_refusal(workspace: &[u64], d: usize, x: u64) -> Result<(), Refusal>
    requires { HasLevel workspace.now d }
    ensures { refused result ≡ end_refusal d (label_in workspace.now d) x }
{
    if d == 0 || x != message_levels::label_of(workspace, d) {
        return Err(Refusal::EndAstray);
    }
    Ok(())
}

// The question of level d is asked once, and the answer joined to the level under it as it stands.
pub fn close(
    workspace: &mut [u64],
    d: usize,
    plan: &Plan,
    index: &mut SlotIndex,
    memory: &mut [u64],
    c: Counts,
) -> Counts
    requires inside { (0 < d) × HasLevel workspace.old d }
    requires can_ask { CanAsk index.old memory.old c }
    ensures closed { (workspace.new, carried_in memory.new result)
        ≡ close_of (states_in plan.now) workspace.old d (carried_in memory.old c) }
    ensures indexed { Indexed index.new memory.new result.filled }
{
    let mut answer = [0u64; set_bits::WIDTH];
    let question = message_levels::question_of(workspace, d);
    let next = memory_ask::ask(plan, index, memory, c, question, &mut answer);
    message_levels::join_at(workspace, d - 1, &answer);
    next
}
