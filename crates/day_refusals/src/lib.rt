// The refusals of a run, and of the pass from any filled slots: one for all that is lent, or else the accepted book and
// day file. Its `pub` is for
// sister crates only: neither function has a premise, and neither is a public call.
// Definitions: run_refusal of rules/specs/Run.antt, pass_refusal of Calls.antt. Read next: day_run, which refuses so.
#![tactic(auto)]

ghost use Rattle.std.specs.Prelude.{◌≡◌, IfOk};
ghost use Rattle.rules.specs.Run.{run_refusal};
ghost use Rattle.rules.specs.Calls.{pass_refusal};
ghost use Rattle.rules.specs.Promise.{lent};
ghost use Rattle.refusals.specs.Numbers.{refused};
ghost use Rattle.day_refusals.specs.Counted.{counts_of};

use book_check::Book;
use day_check::Day;
use memory_ask::Counts;
use refusals::Refusal;

// Refusals 1 to 12, in the order of the table.
#[tactic(auto, using(crate::specs::Laws::run_laws))]
pub fn run_refusal<'a>(
    book: &'a [u8],
    day: &'a [u8],
    memory: &[u64],
    answers: &[u64],
    workspace: &[u64],
) -> Result<(Book<'a>, Day<'a>), Refusal>
    ensures refusal { refused result ≡ run_refusal (lent book.now day.now memory.now answers.now workspace.now) }
    ensures same { IfOk result (λ f. (f.0 ≡ book.now) × (f.1 ≡ day.now)) }
{
    let book = book_check::accept(book)?;
    let day = day_check::accept(day)?;
    if answers.len() < day_row::ROW * day.message_count() {
        return Err(Refusal::FewAnswers);
    }
    if workspace.len() < message_levels::WORKSPACE {
        return Err(Refusal::FewLevels);
    }
    Ok((book, day))
}

// The run's refusals, then 14: more slots filled than lent; then 19: a count of 2^63 or more.
#[tactic(auto, using(crate::specs::Laws::pass_laws))]
pub fn pass_refusal<'a>(
    book: &'a [u8],
    day: &'a [u8],
    memory: &[u64],
    answers: &[u64],
    workspace: &[u64],
    from: Counts,
) -> Result<(Book<'a>, Day<'a>), Refusal>
    ensures refusal { refused result
        ≡ pass_refusal (lent book.now day.now memory.now answers.now workspace.now) (counts_of from) }
    ensures same { IfOk result (λ f. (f.0 ≡ book.now) × (f.1 ≡ day.now)) }
{
    let accepted = run_refusal(book, day, memory, answers, workspace)?;
    if memory_slots::lent(memory) < from.filled {
        return Err(Refusal::OverFilled);
    }
    if memory_ask::LIMIT <= from.asked || memory_ask::LIMIT <= from.anew {
        return Err(Refusal::GreatCount);
    }
    Ok(accepted)
}
