// The pass over the messages of an accepted day file, from any filled slots, wrong answers and all. Its `pub` is for
// sister crates only: day_run has the public calls.
// Read specs/Passing first: what a call is lent, what one message leaves, and what the loop keeps.
#![tactic(auto)]

ghost use Rattle.std.specs.Prelude.{◌≡◌, ◌+◌, ◌*◌, ◌≤◌, length};
ghost use Rattle.rules.specs.DayFile.{message_count};
ghost use Rattle.rules.specs.Run.{row_width, pass_day};
ghost use Rattle.rules.specs.Promise.{lent};
ghost use Rattle.memory_ask.specs.Ask.{carried_in};
ghost use Rattle.memory_index.specs.Index.{Indexed};
ghost use Rattle.day_pass.specs.Passing.{MessageReady, PassReady, MessageWritten, PassedUpTo, pass_returned};

use book_check::Book;
use book_plan::Plan;
use day_check::Day;
use memory_ask::Counts;
use memory_index::SlotIndex;

// Message k read, its filters found and its row written. What is lent comes one by one: a struct of references makes
// each contract longer.
fn message(
    book: &Book<'_>,
    day: &Day<'_>,
    k: usize,
    plan: &Plan,
    index: &mut SlotIndex,
    memory: &mut [u64],
    answers: &mut [u64],
    workspace: &mut [u64],
    c: Counts,
) -> Counts
    requires message_ready { MessageReady book.now day.now k plan.now index.old memory.old workspace.old c }
    requires row_lent { row_width * k + row_width ≤ length answers.old }
    ensures message_written { MessageWritten book.now day.now k memory.old answers.old workspace.old c
        result memory.new answers.new workspace.new }
    ensures indexed { Indexed index.new memory.new result.filled }
{
    let body = day.message_body(k);
    let e = message_reading::read(body, plan, index, memory, workspace, c);
    let filters = day_row::root_filters(book, plan, workspace, e.read);
    day_row::write_row(answers, k, filters);
    e.counts
}

// All messages, one after the other, the memory and the counts handed on.
#[tactic(auto, using(crate::specs::Passing::passing_laws))]
fn all(
    book: &Book<'_>,
    day: &Day<'_>,
    plan: &Plan,
    index: &mut SlotIndex,
    memory: &mut [u64],
    answers: &mut [u64],
    workspace: &mut [u64],
    from: Counts,
) -> Counts
    requires { PassReady book.now day.now plan.now index.old memory.old answers.old workspace.old from }
    ensures passed_up_to { PassedUpTo book.now day.now memory.old answers.old workspace.old from
        (message_count day.now) result memory.new answers.new workspace.new }
    ensures indexed { Indexed index.new memory.new result.filled }
{
    let count = day.message_count();
    let mut c = from;
    for k in 0..count {
        c = message(book, day, k, plan, index, memory, answers, workspace, c);
    }
    c
}

// The whole pass: the messages, then the levels cleared.
pub fn pass(
    book: &Book<'_>,
    day: &Day<'_>,
    plan: &Plan,
    index: &mut SlotIndex,
    memory: &mut [u64],
    answers: &mut [u64],
    workspace: &mut [u64],
    from: Counts,
) -> Counts
    requires { PassReady book.now day.now plan.now index.old memory.old answers.old workspace.old from }
    ensures { pass_returned result memory.new answers.new workspace.new
        ≡ pass_day (lent book.now day.now memory.old answers.old workspace.old) (carried_in memory.old from) }
{
    let c = all(book, day, plan, index, memory, answers, workspace, from);
    message_levels::clear(workspace);
    c
}
