// What a plan is: a book's states decoded once, a State each, in a fixed room. book_planner makes the plan of a book.
// Callers see a Plan as the list of its states, and know it by one name, PlanOf: "this plan is that book's".
// specs/Plan.antt says what a State means. Its `pub` is for sister crates only.
#![tactic(auto)]

ghost use Rattle.std.specs.Prelude.{◌≡◌, ◌<◌, [], ◌∷◌, ◌++◌, length};
ghost use Rattle.rules.specs.Book.{most_states};
ghost use Rattle.rules.specs.Leading.{Higher, Inside};
ghost use Rattle.book_plan.specs.Plan.{plan_room, meant_state, WellLed};

use number_text::Relation;
use std::marker::Model;

// A state of the automaton. A usize is the number, through the book, of a state that it leads to.
#[derive(Clone, Copy, PartialEq, Eq, Debug)]
pub enum State {
    True,
    // A value's relation to a constant.
    Leaf(Relation, i32),
    And(usize, usize),
    Or(usize, usize),
    Not(usize),
    Step { label: u64, to: usize },
}

// The states of the longest plan.
pub const ROOM: usize = 512;

// The first states of a book: AND, OR and NOT lead to higher ones, and none leads past the last that a book may have.
// No heap: a room for the longest, and how many of it are states.
#[derive(Drop)]
pub struct Plan {
    states: [State; ROOM],
    count: usize,
}

impl Model for Plan {
    ghost use Rattle.std.specs.Prelude.{◌≤◌, List, take};
    ghost use Rattle.book_plan.specs.declared.State.{State};
    ghost use Rattle.book_plan.specs.Plan.{plan_room, WellLed};

    ghost Value = { List State };

    ghost view = { λ p. take p.count p.states };

    ghost invariant = { λ p. (p.count ≤ plan_room) × WellLed (take p.count p.states) };
}

// No state yet.
pub const EMPTY: Plan = Plan {
    states: [State::True; ROOM],
    count: 0,
};

impl Plan {
    // No state is left.
    pub fn clear(&mut self)
        ensures { self.new ≡ [] }
    {
        self.count = 0;
    }

    pub fn len(&self) -> usize
        ensures { result ≡ length self.now }
    {
        self.states().len()
    }

    // One state more, the last.
    pub fn push(&mut self, state: State)
        requires room { length self.old < plan_room }
        requires leads { Higher (meant_state state) (length self.old) × Inside (meant_state state) most_states }
        ensures { self.new ≡ self.old ++ state ∷ [] }
    {
        self.states[self.count] = state;
        self.count += 1;
    }

    pub fn states(&self) -> &[State]
        ensures same { result.now ≡ self.now }
        ensures well_led { WellLed self.now }
    {
        &self.states[..self.count]
    }
}

// The label that any element fits, which is also below every element's.
pub const ANY_ELEMENT: u64 = 0;

// The label that any attribute fits, past every element's and below every attribute's.
pub const ANY_ATTRIBUTE: u64 = 32768;

// Every label is below it.
pub const LABELS: u64 = 65536;
