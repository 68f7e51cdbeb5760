// The events of a message. The reader's state goes in by value and comes back, one method for each event kind; the
// open levels stand in the lent workspace, the questions go to the inner call. Its `pub` is for sister crates only:
// message_reading reads whole messages.
// Read specs/Meant and specs/Step first: what an answer means, and what each event does to all that is lent. Read next:
// message_step.
#![tactic(auto)]

ghost use Rattle.std.specs.Prelude.{◌≡◌};
ghost use Rattle.book_plan.specs.Plan.{meaning_in};
ghost use Rattle.memory_ask.specs.Ask.{CanAsk};
ghost use Rattle.message_events.specs.Meant.{meant};
ghost use Rattle.message_events.specs.Step.{AtEvent, start_of, text_of, end_of, IndexedNext};

use book_plan::Plan;
use memory_ask::Counts;
use memory_index::SlotIndex;
use refusals::{Refusal, Refused};

// How far a message is read: the place of the next event, the starts open, and the counts.
#[derive(Clone, Copy, Debug, PartialEq, Eq)]
pub struct Reader {
    pub place: usize,
    pub depth: usize,
    pub counts: Counts,
}

impl Reader {
    // The event at the reader's place is refused.
    pub fn refused(self, refusal: Refusal) -> Refused
        ensures { result ≡ record { refusal = refusal; place = self.place } }
    {
        Refused {
            refusal,
            place: self.place,
        }
    }

    // 1, label (2 bytes)
    #[tactic(auto, using(crate::specs::Laws::start_laws))]
    pub fn start(self, body: &[u8], workspace: &mut [u64]) -> Result<Reader, Refused>
        requires { AtEvent body.now workspace.old self }
        ensures { (meant result, workspace.new) ≡ start_of body.now workspace.old self }
    {
        let at = self.place;
        let depth = self.depth;
        if body.len() - at < 3 {
            return Err(self.refused(Refusal::EventCut));
        }
        let x = number_bytes::read2(body, at + 1);
        let label = message_levels::label_of(workspace, depth);
        let stage = message_levels::stage_of(workspace, depth);
        message_starts::start_refusal(depth, label, stage, x).map_err(|e| self.refused(e))?;
        message_starts::open_child(workspace, depth, stage, x);
        Ok(Reader {
            place: at + 3,
            depth: depth + 1,
            ..self
        })
    }

    // 2, length (1 byte), that many bytes
    pub fn text(self, body: &[u8], plan: &Plan, workspace: &mut [u64]) -> Result<Reader, Refused>
        requires { AtEvent body.now workspace.old self }
        ensures { (meant result, workspace.new) ≡ text_of body.now (meaning_in plan.now) workspace.old self }
    {
        let at = self.place;
        if body.len() - at < 2 {
            return Err(self.refused(Refusal::EventCut));
        }
        let k = usize::from(body[at + 1]);
        if body.len() - at < k + 2 {
            return Err(self.refused(Refusal::EventCut));
        }
        let from = at + 2;
        message_texts::hold(workspace, self.depth, plan, &body[from..from + k]).map_err(
            |e| self.refused(e),
        )?;
        Ok(Reader {
            place: at + (k + 2),
            ..self
        })
    }

    // 3, label (2 bytes)
    #[tactic(auto, using(crate::specs::Laws::end_laws))]
    pub fn end(
        self,
        body: &[u8],
        plan: &Plan,
        index: &mut SlotIndex,
        memory: &mut [u64],
        workspace: &mut [u64],
    ) -> Result<Reader, Refused>
        requires at_event { AtEvent body.now workspace.old self }
        requires can_ask { CanAsk index.old memory.old self.counts }
        ensures ended { (meant result, workspace.new, memory.new)
            ≡ end_of body.now (meaning_in plan.now) workspace.old memory.old self }
        ensures indexed_next { IndexedNext index.new memory.new self.counts.filled (meant result) }
    {
        let at = self.place;
        let depth = self.depth;
        if body.len() - at < 3 {
            return Err(self.refused(Refusal::EventCut));
        }
        let x = number_bytes::read2(body, at + 1);
        message_ends::end_refusal(workspace, depth, x).map_err(|e| self.refused(e))?;
        let counts = message_ends::close(workspace, depth, plan, index, memory, self.counts);
        Ok(Reader {
            place: at + 3,
            depth: depth - 1,
            counts,
        })
    }
}
