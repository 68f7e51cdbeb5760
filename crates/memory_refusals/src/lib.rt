// The refusals of a question: one for all that the inner call is lent, or else the accepted book. Its `pub` is
// for sister crates only: `refusal_of` has no premise and is no public call either.
// Definition: question_refusal of rules/specs/Calls.antt. Read next: memory_question, which refuses so.
#![tactic(auto)]

ghost use Rattle.std.specs.Prelude.{◌≡◌, IfOk};
ghost use Rattle.rules.specs.Calls.{question_refusal};
ghost use Rattle.refusals.specs.Numbers.{refused};
ghost use Rattle.memory_refusals.specs.Question.{question_lent};

use book_check::Book;
use memory_ask::Counts;
use memory_slots::{ANSWER, QUESTION};
use refusals::Refusal;

// The book's refusals; then a question or an answer's room of another length; then more slots filled than lent; then a
// count of 2^63 or more.
#[tactic(auto, using(crate::specs::Laws::question_laws))]
pub fn refusal_of<'a>(
    book: &'a [u8],
    memory: &[u64],
    c: Counts,
    q: &[u64],
    answer: &[u64],
) -> Result<Book<'a>, Refusal>
    ensures refusal { refused result
        ≡ question_refusal (question_lent book.now memory.now c.filled c.anew q.now answer.now) }
    ensures same { IfOk result (λ b. b ≡ book.now) }
{
    let book = book_check::accept(book)?;
    if (q.len() != QUESTION) | (answer.len() != ANSWER) {
        return Err(Refusal::QuestionShape);
    }
    if memory_slots::lent(memory) < c.filled {
        return Err(Refusal::OverFilled);
    }
    if memory_ask::LIMIT <= c.anew {
        return Err(Refusal::GreatCount);
    }
    Ok(book)
}
