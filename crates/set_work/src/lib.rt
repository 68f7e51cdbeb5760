// Working a question out by the plan: its set completed, then the STEP states that the child makes match. Its `pub` is
// for sister crates only: memory_ask keeps what is worked out.
// Its contract is one equation to `work_out` of rules/specs/Sets.antt, over the states that the plan holds. Read
// work_out first, then the loop that answers, then what it asks of one state. Read next: memory_ask.
#![tactic(auto)]

ghost use Rattle.std.specs.Prelude.{◌≡◌, ◌≤◌, length};
ghost use Rattle.rules.specs.State.{fits as fitting};
ghost use Rattle.rules.specs.Book.{most_states};
ghost use Rattle.rules.specs.Sets.{set_width, has as member, gives_step, work_out};
ghost use Rattle.rules.specs.Leading.{Inside};
ghost use Rattle.book_plan.specs.Plan.{meant_state, states_in, WellLed};
ghost use Rattle.set_work.specs.Answering.{answered};

use book_plan::{Plan, State};

// Whether a STEP's label fits a child's.
#[tactic(auto, using(crate::specs::Labels::fits_laws))]
fn fits(l: u64, x: u64) -> bool
    ensures { result ≡ fitting l x }
{
    // No branch between the two bits.
    match l {
        book_plan::ANY_ELEMENT => (book_plan::ANY_ELEMENT < x) & (x < book_plan::ANY_ATTRIBUTE),
        book_plan::ANY_ATTRIBUTE => (book_plan::ANY_ATTRIBUTE < x) & (x < book_plan::LABELS),
        _ => l == x,
    }
}

// Whether one state is a STEP that a child with this label and completed set makes match.
fn gives(state: State, label: u64, set: &[u64]) -> bool
    requires { (set_width ≤ length set.now) × Inside (meant_state state) most_states }
    ensures { result ≡ gives_step label (member set.now) (meant_state state) }
{
    // No branch between the two bits.
    match state {
        State::Step { label: wanted, to } => fits(wanted, label) & set_bits::has(set, to),
        _ => false,
    }
}

// The answer for a child with this label and completed set.
#[tactic(auto, using(crate::specs::Answering::answer_laws))]
fn answer(states: &[State], set: &[u64], label: u64, out: &mut [u64])
    requires { WellLed states.now × (set_width ≤ length set.now) × (length out.old ≡ set_width) }
    ensures { out.new ≡ answered (states_in states.now) set.now label }
{
    out.fill(0);
    for (k, state) in states.iter().enumerate() {
        let b = gives(*state, label, set);
        set_bits::put(out, k, b);
    }
}

// Works a question out: a set's numbers and a label.
#[tactic(auto, using(crate::specs::Answering::worked_out))]
pub fn work_out(plan: &Plan, asked: &[u64], label: u64, out: &mut [u64])
    requires { (set_width ≤ length asked.now) × (length out.old ≡ set_width) }
    ensures { out.new ≡ work_out (states_in plan.now) (record { states = asked.now; label = label }) }
{
    let mut set = [0u64; set_bits::WIDTH];
    set_complete::complete(plan, asked, &mut set);
    answer(plan.states(), &set, label, out);
}
