// The slots of the lent memory: the count of slots lent, a slot written, a slot's question lent, its answer read. No
// other crate knows where a slot lies or how it is laid out.
// Its `pub` is for sister crates only: a caller shows the lengths; `lent` has no premise and is no public call either.
// Definitions: rules/specs/Memory.antt. Read next: memory_index.
#![tactic(auto)]

ghost use Rattle.std.specs.Prelude.{◌≡◌, ◌++◌, ◌≤◌, length};
ghost use Rattle.rules.specs.Sets.{set_width};
ghost use Rattle.rules.specs.Memory.{question_width, slot_width, most_slots, question_in};
ghost use Rattle.rules.specs.Memory.{slot_question, slot_answer, slots_lent};
ghost use Rattle.memory_slots.specs.Slots.{HasSlot, with_slot};

// A slot: the question's numbers, then the answer's.
pub const QUESTION: usize = LABEL + 1;

pub const ANSWER: usize = 8;

// A question: the numbers of the asked set, then the label.
pub const LABEL: usize = 8;

pub const SLOT: usize = QUESTION + ANSWER;

// The most slots that may be filled.
pub const SLOTS: usize = 4096;

// The set of which a question is asked. A question is a slice and no array: it is a part of what is lent.
pub fn set_of(q: &[u64]) -> &[u64]
    requires { length q.now ≡ question_width }
    ensures { (result.now ≡ (question_in q.now).states) × (length result.now ≡ set_width) }
{
    &q[..LABEL]
}

pub fn label_of(q: &[u64]) -> u64
    requires { length q.now ≡ question_width }
    ensures { result ≡ (question_in q.now).label }
{
    q[LABEL]
}

// The count of slots that may be filled.
#[tactic(auto, using(crate::specs::Slots::lent_less, crate::specs::Slots::lent_most))]
pub fn lent(memory: &[u64]) -> usize
    ensures { (result ≡ slots_lent memory.now) × (result ≤ most_slots) }
{
    (memory.len() / SLOT).min(SLOTS)
}

fn fill(slot: &mut [u64], q: &[u64], answer: &[u64])
    requires slot_long { length slot.old ≡ slot_width }
    requires question_long { (length q.now ≡ question_width) × (length answer.now ≡ set_width) }
    ensures { slot.new ≡ q.now ++ answer.now }
{
    let (asks, holds) = slot.split_at_mut(QUESTION);
    // Of a length that is fixed: the compiler then writes the copy out, and calls nothing for it.
    asks.copy_from_slice(&q[..QUESTION]);
    holds.copy_from_slice(&answer[..ANSWER]);
}

// The question and its answer in slot i.
#[tactic(auto, using(crate::specs::Loops::kept_slot))]
pub fn keep(memory: &mut [u64], i: usize, q: &[u64], answer: &[u64])
    requires has_slot { HasSlot memory.old i }
    requires question_long { (length q.now ≡ question_width) × (length answer.now ≡ set_width) }
    ensures { memory.new ≡ with_slot memory.old i q.now answer.now }
{
    let a = SLOT * i;
    fill(&mut memory[a..a + SLOT], q, answer);
}

// The question that slot i asks.
#[tactic(auto, using(crate::specs::Loops::asked))]
pub fn question(memory: &[u64], i: usize) -> &[u64]
    requires { HasSlot memory.now i }
    ensures { (result.now ≡ slot_question memory.now i) × (length result.now ≡ question_width) }
{
    let a = SLOT * i;
    &memory[a..a + QUESTION]
}

// The answer in slot i.
#[tactic(auto, using(crate::specs::Loops::recalled))]
pub fn recall(memory: &[u64], i: usize, answer: &mut [u64])
    requires { HasSlot memory.now i × (length answer.old ≡ set_width) }
    ensures { answer.new ≡ slot_answer memory.now i }
{
    let a = SLOT * i + QUESTION;
    answer.copy_from_slice(&memory[a..a + ANSWER]);
}
