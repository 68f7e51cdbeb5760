// The pass over the messages of an accepted day file with nothing lent but what the public calls are lent: it makes the
// plan of the book and the index of the filled slots. Its `pub` is for sister crates only: a caller shows RunAccepted.
// Read specs/RunAccepted first, and day_pass, which passes over the messages. Read next: day_run.
#![tactic(auto)]

ghost use Rattle.std.specs.Prelude.{◌≡◌};
ghost use Rattle.rules.specs.Run.{pass_day};
ghost use Rattle.rules.specs.Promise.{lent};
ghost use Rattle.memory_ask.specs.Ask.{carried_in};
ghost use Rattle.day_pass.specs.Passing.{pass_returned};
ghost use Rattle.day_pass_alone.specs.RunAccepted.{RunAccepted};

use book_check::Book;
use day_check::Day;
use memory_ask::Counts;

// The plan of the book and the index of the filled slots are made, and the pass is made with them.
pub fn pass_alone(
    book: &Book<'_>,
    day: &Day<'_>,
    memory: &mut [u64],
    answers: &mut [u64],
    workspace: &mut [u64],
    from: Counts,
) -> Counts
    requires { RunAccepted day.now memory.old answers.old workspace.old from }
    ensures { pass_returned result memory.new answers.new workspace.new
        ≡ pass_day (lent book.now day.now memory.old answers.old workspace.old) (carried_in memory.old from) }
{
    // As memory_question makes them: handed back by a function of both, they would be copied.
    let mut plan = book_plan::EMPTY;
    book_planner::make(book, &mut plan);
    let mut index = memory_index::EMPTY;
    index.index_all(memory, from.filled);
    day_pass::pass(
        book, day, &plan, &mut index, memory, answers, workspace, from,
    )
}
