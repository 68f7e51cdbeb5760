// The LEAF states that a value makes match, joined to a set. Its `pub` is for sister crates only: message_levels joins
// them to the level of the text.
// Its contract is one equation to `leaves_of` of rules/specs/Sets.antt, over the states that the plan holds. Read
// leaves first, then what it asks of one state. Read next: set_complete.
#![tactic(auto)]

ghost use Rattle.std.specs.Prelude.{◌≡◌, length};
ghost use Rattle.rules.specs.Sets.{set_width, either, is_leaf_of, leaves_of};
ghost use Rattle.book_plan.specs.Plan.{meant_state, states_in};
ghost use Rattle.number_text.specs.Meant.{meant};

use book_plan::{Plan, State};
use number_text::Value;

// Whether one state is a LEAF that the value makes match.
fn leaf(state: State, value: Value) -> bool
    ensures { result ≡ is_leaf_of (meant value) (meant_state state) }
{
    match (state, value) {
        (State::Leaf(relation, constant), Value::Number(number)) => relation.related(
            number, constant,
        ),
        (State::Leaf(_, _), Value::NoNumber) => false,
        (State::Leaf(_, _), Value::OutOfRange) => false,
        (
            State::True | State::And(_, _) | State::Or(_, _) | State::Not(_) | State::Step { .. },
            _,
        ) => false,
    }
}

// Joins the LEAF states that the value makes match; is_leaf_of says which they are. Most states of a book are none, so
// nothing is read or written for them.
#[tactic(auto, using(crate::specs::Leaves::leaves_laws))]
pub fn leaves(plan: &Plan, value: Value, set: &mut [u64])
    requires { length set.old ≡ set_width }
    ensures { set.new ≡ either set.old (leaves_of (states_in plan.now) (meant value)) }
{
    for (k, state) in plan.states().iter().enumerate() {
        if leaf(*state, value) {
            set_bits::put(set, k, true);
        }
    }
}
