// The texts of a message: whether one is allowed where it stands, and what it makes of its level. Its `pub` is for
// sister crates only: message_events reads the event.
// specs/Texts says what becomes of the workspace; the refusal in it is `text_refusal` of rules/specs/Message.antt. Read
// next: message_ends.
#![tactic(auto)]

ghost use Rattle.std.specs.Prelude.{◌≡◌};
ghost use Rattle.refusals.specs.Numbers.{refused};
ghost use Rattle.book_plan.specs.Plan.{meaning_in};
ghost use Rattle.message_levels.specs.Level.{HasLevel};
ghost use Rattle.message_texts.specs.Texts.{held_by};

use book_plan::Plan;
use number_text::Value;
use refusals::Refusal;

// 26 and 27, in that order, and nothing is changed; or the text's LEAF states are joined to its level.
pub fn hold(workspace: &mut [u64], d: usize, plan: &Plan, text: &[u8]) -> Result<(), Refusal>
    requires { HasLevel workspace.old d }
    ensures { (refused result, workspace.new) ≡ held_by (meaning_in plan.now) text.now workspace.old d }
{
    if d == 0 || message_levels::stage_of(workspace, d) != message_levels::NOTHING_CAME {
        return Err(Refusal::TextAstray);
    }
    match number_text::text_value(text) {
        Value::OutOfRange => Err(Refusal::OutOfRange),
        value => {
            message_levels::leaves_at(workspace, d, plan, value);
            message_levels::stage_at(workspace, d, message_levels::TEXT_CAME);
            Ok(())
        }
    }
}
