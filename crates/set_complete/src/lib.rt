// Completing a set: TRUE, AND, OR and NOT by the states that they lead to, LEAF and STEP as they stand. Its `pub` is
// for sister crates only.
// Its contract is one equation to `completed` of rules/specs/Sets.antt, over the states that the plan holds. Read
// complete first, then what it asks of one state. Read next: set_work and set_filters, which begin with it.
#![tactic(auto)]

ghost use Rattle.std.specs.Prelude.{◌≡◌, ◌<◌, ◌≤◌, length};
ghost use Rattle.rules.specs.Book.{most_states};
ghost use Rattle.rules.specs.Sets.{set_width, has as member, completes};
ghost use Rattle.rules.specs.Leading.{Inside};
ghost use Rattle.book_plan.specs.Plan.{meant_state, states_in};
ghost use Rattle.set_complete.specs.Completing.{completed_set};

use book_plan::{Plan, State};

// What one state says: LEAF and STEP stand as asked, AND, OR and NOT by the states above them, which are completed
// already.
fn bit_of(state: State, k: usize, asked: &[u64], set: &[u64]) -> bool
    requires sets_long { (set_width ≤ length asked.now) × (set_width ≤ length set.now) }
    requires state_inside { (k < most_states) × Inside (meant_state state) most_states }
    ensures { result ≡ completes (meant_state state) (member asked.now k) (member set.now) }
{
    // No branch between the two bits.
    match state {
        State::True => true,
        State::Leaf(_, _) | State::Step { .. } => set_bits::has(asked, k),
        State::And(i, j) => set_bits::has(set, i) & set_bits::has(set, j),
        State::Or(i, j) => set_bits::has(set, i) | set_bits::has(set, j),
        State::Not(i) => !set_bits::has(set, i),
    }
}

// Completes the asked set into another, from the last state down: AND, OR and NOT lead only to higher states.
#[tactic(auto, using(crate::specs::Completing::complete_laws))]
pub fn complete(plan: &Plan, asked: &[u64], set: &mut [u64])
    requires { (set_width ≤ length asked.now) × (length set.old ≡ set_width) }
    ensures { set.new ≡ completed_set (states_in plan.now) asked.now }
{
    set.fill(0);
    let states = plan.states();
    // By number, from the last down: each state has its law.
    for k in (0..states.len()).rev() {
        let b = bit_of(states[k], k, asked, set);
        set_bits::put(set, k, b);
    }
}
