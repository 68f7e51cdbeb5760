// The inner call as a public call: any book, memory and counts are taken, and what cannot be answered is refused.
// It makes the plan of the book and the index of the filled slots, and calls the very function that the run calls,
// `memory_ask::ask`.
// Its promise: rules/specs/Promise.antt, QuestionPromise; its definition: Calls.antt there.
#![tactic(auto)]

ghost use Rattle.std.specs.Prelude.{◌≡◌};
ghost use Rattle.rules.specs.Book.{states_of};
ghost use Rattle.rules.specs.Memory.{question_in};
ghost use Rattle.rules.specs.Pass.{ask_next};
ghost use Rattle.rules.specs.Promise.{QuestionPromise};
ghost use Rattle.memory_ask.specs.Ask.{carried_in, replied};
ghost use Rattle.memory_refusals.specs.Question.{question_lent};
ghost use Rattle.memory_question.specs.Question.{answered_of, question_returned, Answerable};

use book_check::Book;
use memory_ask::Counts;
use refusals::Refusal;

// The counts for the next question.
#[derive(Clone, Copy, Debug, PartialEq, Eq)]
pub struct Kept {
    pub anew: u64,
    pub filled: usize,
}

// What the call gives, as other languages have it: the refusal's number, 0 where nothing is refused, and the counts,
// zero where the question is refused.
#[repr(C)]
#[derive(Clone, Copy, Debug, PartialEq, Eq)]
pub struct Answered {
    pub refusal: u64,
    pub anew: u64,
    pub filled: usize,
}

impl From<Result<Kept, Refusal>> for Answered {
    ghost from_gives = { λ r a. a ≡ answered_of r };

    fn from(given: Result<Kept, Refusal>) -> Answered {
        match given {
            Ok(kept) => Answered {
                refusal: 0,
                anew: kept.anew,
                filled: kept.filled,
            },
            Err(e) => Answered {
                refusal: u64::from(e),
                anew: 0,
                filled: 0,
            },
        }
    }
}

// A question to an accepted book.
#[tactic(auto, using(crate::specs::Laws::asks_book))]
fn ask_alone(
    book: &Book<'_>,
    memory: &mut [u64],
    c: Counts,
    q: &[u64],
    answer: &mut [u64],
) -> Counts
    requires { Answerable memory.old c q.now answer.old }
    ensures { replied answer.new memory.new result
        ≡ ask_next (states_of book.now) (question_in q.now) (carried_in memory.old c) }
{
    // As a pass alone makes them: handed back by a function of both, they would be copied.
    let mut plan = book_plan::EMPTY;
    book_planner::make(book, &mut plan);
    let mut index = memory_index::EMPTY;
    index.index_all(memory, c.filled);
    memory_ask::ask(&plan, &mut index, memory, c, q, answer)
}

pub fn answer_question(
    book: &[u8],
    memory: &mut [u64],
    filled: usize,
    anew: u64,
    q: &[u64],
    answer: &mut [u64],
) -> Result<Kept, Refusal>
    ensures { QuestionPromise (question_lent book.now memory.old filled anew q.now answer.old)
        (question_returned (answered_of result) memory.new answer.new) }
{
    let c = Counts {
        asked: 0,
        anew,
        filled,
    };
    let book = memory_refusals::refusal_of(book, memory, c, q, answer)?;
    let next = ask_alone(&book, memory, c, q, answer);
    Ok(Kept {
        anew: next.anew,
        filled: next.filled,
    })
}
