// The starts of a message: whether one is allowed where it stands, and what it makes of the levels. Its `pub` is for
// sister crates only: message_events reads the event.
// The refusal is `start_refusal` of rules/specs/Message.antt; specs/Starts says what becomes of the workspace. Read
// next: message_texts.
#![tactic(auto)]

ghost use Rattle.std.specs.Prelude.{◌≡◌, ◌+◌};
ghost use Rattle.rules.specs.State.{attribute};
ghost use Rattle.rules.specs.Message.{start_astray, start_refusal, stage_after};
ghost use Rattle.refusals.specs.Numbers.{refused};
ghost use Rattle.message_levels.specs.Level.{HasLevel};
ghost use Rattle.message_starts.specs.Starts.{child_opened};

use message_levels::{CHILD_CAME, MOST_OPEN, NOTHING_CAME, TEXT_CAME};
use refusals::Refusal;

fn is_attribute(label: u64) -> bool
    ensures { result ≡ attribute label }
{
    book_plan::ANY_ATTRIBUTE < label
}

// Where no start may stand: in an attribute; an attribute at the top or after a child element or a text; an element
// after a text, or a second one at the top.
// The stage comes as its number, here and below, as the level holds it.
fn start_astray(depth: usize, label: u64, stage: u64, x: u64) -> bool
    ensures { result ≡ start_astray depth label stage x }
{
    let misplaced = if is_attribute(x) {
        depth == 0 || stage != NOTHING_CAME
    } else {
        stage == TEXT_CAME || depth == 0 && stage == CHILD_CAME
    };
    is_attribute(label) || misplaced
}

// 23, 24 and 25, in that order; or the start is allowed.
#[tactic(auto, using(crate::specs::Starts::refusal_laws), unfolding(rules::specs::Message::start_refusal))]
pub fn start_refusal(depth: usize, label: u64, stage: u64, x: u64) -> Result<(), Refusal>
    ensures { refused result ≡ start_refusal depth label stage x }
{
    if x == book_plan::ANY_ELEMENT || x == book_plan::ANY_ATTRIBUTE {
        return Err(Refusal::AnyLabel);
    }
    if start_astray(depth, label, stage, x) {
        return Err(Refusal::StartAstray);
    }
    if MOST_OPEN <= depth {
        return Err(Refusal::ManyOpen);
    }
    Ok(())
}

// An attribute leaves its element's stage as it is.
#[tactic(auto, using(crate::specs::Starts::stage_laws))]
fn stage_after(x: u64, stage: u64) -> u64
    ensures { result ≡ stage_after (attribute x) stage }
{
    if is_attribute(x) { stage } else { CHILD_CAME }
}

// The parent's stage, then the child's level.
#[tactic(auto, using(crate::specs::Starts::opened_child))]
pub fn open_child(workspace: &mut [u64], d: usize, stage: u64, x: u64)
    requires { HasLevel workspace.old (d + 1) }
    ensures { workspace.new ≡ child_opened workspace.old d stage x }
{
    message_levels::stage_at(workspace, d, stage_after(x, stage));
    message_levels::open_at(workspace, d + 1, x);
}
