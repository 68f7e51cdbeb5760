// The plan of an accepted book: each state's 8 bytes decoded once, so that no question reads the book again.
// Its `pub` is for sister crates only. What a plan is, and what `make` promises:
// PlanOf in book_plan/specs/Plan.antt.
#![tactic(auto)]

ghost use Rattle.std.specs.Prelude.{◌≡◌, ◌+◌, ◌*◌, ◌≤◌, ◌++◌, length};
ghost use Rattle.rules.specs.Book.{most_states, state_width, state_at};
ghost use Rattle.book_plan.specs.Plan.{meant_state, states_in, PlanOf};
ghost use Rattle.book_planner.specs.Make.{body_states, LeadsWell};

use book_check::Book;
use book_contents::Kind;
use book_plan::{Plan, State};

// The state in the 8 bytes at a place of a body whose state 0 is number base of the book.
#[tactic(auto, using(crate::specs::OneState::kind_laws))]
fn state(book: &[u8], at: usize, base: usize) -> State
    requires { (at + state_width ≤ length book.now) × (base ≤ most_states) }
    ensures { meant_state result ≡ state_at book.now base at }
{
    let x = number_bytes::read2(book, at + 2);
    let y = number_bytes::read2(book, at + 4);
    // A u64 has no From into usize: as.
    match Kind::try_from(number_bytes::byte(book, at)) {
        Ok(Kind::Leaf) => State::Leaf(
            number_text::Relation::from(number_bytes::byte(book, at + 1)),
            number_bytes::signed(number_bytes::read4(book, at + 4)),
        ),
        Ok(Kind::And) => State::And(base + x as usize, base + y as usize),
        Ok(Kind::Or) => State::Or(base + x as usize, base + y as usize),
        Ok(Kind::Not) => State::Not(base + x as usize),
        Ok(Kind::Step) => State::Step {
            label: x,
            to: base + y as usize,
        },
        Ok(Kind::True) | Err(_) => State::True,
    }
}

// The states of one body, after those of the bodies before it.
#[tactic(auto, using(crate::specs::Make::body_laws))]
fn body(book: &[u8], at: usize, n: usize, plan: &mut Plan)
    requires states_lent { (at + state_width * n ≤ length book.now) × (length plan.old + n ≤ most_states) }
    requires leads { LeadsWell book.now (length plan.old) at n }
    ensures { states_in plan.new ≡ states_in plan.old ++ body_states book.now (length plan.old) at n }
{
    let base = plan.len();
    for i in 0..n {
        plan.push(state(book, book_contents::state_at(at, i), base));
    }
}

// The whole plan, in the order of the contents. It is written where it stands: handed back, its room would be copied.
#[tactic(auto, using(crate::specs::Make::make_laws))]
pub fn make(book: &Book<'_>, plan: &mut Plan)
    ensures { PlanOf plan.new book.now }
{
    plan.clear();
    for k in 0..book.filter_count() {
        body(book.bytes(), book.body_start(k), book.body_size(k), plan);
    }
}
