// The finish of a message whose events were all accepted. Its `pub` is for sister crates only: message_reading reads
// whole messages.
// The refusal is `last_refusal` of rules/specs/Message.antt; specs/Finish says it with its place. Read next:
// message_reading.
#![tactic(auto)]

ghost use Rattle.std.specs.Prelude.{◌≡◌, length};
ghost use Rattle.refusals.specs.Numbers.{refused_message, refused_place};
ghost use Rattle.message_levels.specs.Level.{HasLevel};
ghost use Rattle.message_finish.specs.Finish.{finished};

use message_events::Reader;
use message_levels::CHILD_CAME;
use refusals::{Refusal, Refused};

// After the last event: the top element never came or is still open, or the message is read.
#[tactic(auto, using(crate::specs::Finish::finish_laws))]
pub fn finish(s: Reader, body: &[u8], workspace: &[u64]) -> Result<(), Refused>
    requires { HasLevel workspace.now s.depth }
    ensures { (refused_message result, refused_place result) ≡ finished s (length body.now) workspace.now }
{
    if s.depth == 0 && message_levels::stage_of(workspace, s.depth) == CHILD_CAME {
        return Ok(());
    }
    Err(Refused {
        refusal: Refusal::TopMissing,
        place: body.len(),
    })
}
