// The inner call: one question answered from the first slot that asks it, or worked out anew and kept where a slot is
// free.
// Its `pub` is for sister crates only: a caller shows the plan and the index. memory_question has the same call with
// no premise.
// Its definition is `ask_next` of rules/specs/Pass.antt: the question counted, and put to `ask` of Memory.antt, for any
// filled slots, right or wrong.
#![tactic(auto)]

ghost use Rattle.std.specs.Prelude.{◌≡◌, length};
ghost use Rattle.std.proofs.Math.Option.{none};
ghost use Rattle.rules.specs.Sets.{set_width, work_out};
ghost use Rattle.rules.specs.Memory.{question_width, question_in, first_slot};
ghost use Rattle.rules.specs.Pass.{ask_next};
ghost use Rattle.book_plan.specs.Plan.{states_in};
ghost use Rattle.memory_hash.specs.Hash.{Hashed};
ghost use Rattle.memory_index.specs.Index.{Indexed};
ghost use Rattle.memory_ask.specs.Ask.{carried_in, replied, CanAsk};

use book_plan::Plan;
use memory_index::SlotIndex;

// What is counted from question to question: those asked, those worked out anew, the slots filled.
#[derive(Clone, Copy, Debug, PartialEq, Eq)]
pub struct Counts {
    pub asked: u64,
    pub anew: u64,
    pub filled: usize,
}

// 2^63: a count below it stays below 2^64, whatever a day file asks.
pub const LIMIT: u64 = 1 << 63;

// Works out what a question's numbers ask.
#[tactic(auto, using(crate::specs::Laws::worked_out))]
fn work_out(plan: &Plan, q: &[u64], answer: &mut [u64])
    requires { (length q.now ≡ question_width) × (length answer.old ≡ set_width) }
    ensures { answer.new ≡ work_out (states_in plan.now) (question_in q.now) }
{
    let label = memory_slots::label_of(q);
    set_work::work_out(plan, memory_slots::set_of(q), label, answer);
}

// A question that no filled slot asks: worked out, and kept where a slot is free.
fn work_anew(
    plan: &Plan,
    index: &mut SlotIndex,
    memory: &mut [u64],
    c: Counts,
    q: &[u64],
    h: usize,
    answer: &mut [u64],
) -> Counts
    requires can_ask { CanAsk index.old memory.old c }
    requires hashed { Hashed q.now h × (length answer.old ≡ set_width) }
    requires unasked { first_slot memory.old c.filled (question_in q.now) ≡ none }
    ensures answered { replied answer.new memory.new result
        ≡ ask_next (states_in plan.now) (question_in q.now) (carried_in memory.old c) }
    ensures indexed { Indexed index.new memory.new result.filled }
{
    let next = Counts {
        asked: c.asked + 1,
        anew: c.anew + 1,
        ..c
    };
    work_out(plan, q, answer);
    if c.filled < memory_slots::lent(memory) {
        index.keep(memory, c.filled, q, h, answer);
        return Counts {
            filled: c.filled + 1,
            ..next
        };
    }
    next
}

// Through the index of the filled slots, which stays their index.
pub fn ask(
    plan: &Plan,
    index: &mut SlotIndex,
    memory: &mut [u64],
    c: Counts,
    q: &[u64],
    answer: &mut [u64],
) -> Counts
    requires can_ask { CanAsk index.old memory.old c }
    requires question_long { (length q.now ≡ question_width) × (length answer.old ≡ set_width) }
    ensures answered { replied answer.new memory.new result
        ≡ ask_next (states_in plan.now) (question_in q.now) (carried_in memory.old c) }
    ensures indexed { Indexed index.new memory.new result.filled }
{
    let h = memory_hash::hash(q);
    match index.find(memory, c.filled, q, h) {
        Some(i) => {
            memory_slots::recall(memory, i, answer);
            Counts {
                asked: c.asked + 1,
                ..c
            }
        }
        None => work_anew(plan, index, memory, c, q, h, answer),
    }
}
