// The public calls for other languages: built by `rt lib` in this folder, and declared in include/esquirmell.h. Each
// hands its arguments on to a call of day_run, memory_question or book_filter_body, and has its promise; a Result comes
// to a number and counts. A slice is a pointer and then a count.
#![tactic(auto)]

ghost use Rattle.rules.specs.Calls.{counts};
ghost use Rattle.rules.specs.Promise.{lent, RunPromise, PassPromise, QuestionPromise, PartPromise};
ghost use Rattle.day_run.specs.Calls.{returned};
ghost use Rattle.memory_question.specs.Question.{question_lent, question_returned};
ghost use Rattle.book_filter_body.specs.Found.{part_in};

use book_filter_body::Part;
use day_run::Total;
use memory_question::Answered;

#[unsafe(no_mangle)]
pub extern "C" fn esquirmell_run(
    book: &[u8],
    day: &[u8],
    memory: &mut [u64],
    answers: &mut [u64],
    workspace: &mut [u64],
) -> Total
    ensures { RunPromise (lent book.now day.now memory.old answers.old workspace.old)
        (returned result memory.new answers.new workspace.new) }
{
    Total::from(day_run::run(book, day, memory, answers, workspace))
}

#[unsafe(no_mangle)]
pub extern "C" fn esquirmell_pass(
    book: &[u8],
    day: &[u8],
    memory: &mut [u64],
    answers: &mut [u64],
    workspace: &mut [u64],
    asked: u64,
    anew: u64,
    filled: usize,
) -> Total
    ensures { PassPromise (lent book.now day.now memory.old answers.old workspace.old) (counts asked anew filled)
        (returned result memory.new answers.new workspace.new) }
{
    Total::from(day_run::pass_from(book, day, memory, answers, workspace, asked, anew, filled))
}

#[unsafe(no_mangle)]
pub extern "C" fn esquirmell_ask(
    book: &[u8],
    memory: &mut [u64],
    filled: usize,
    anew: u64,
    question: &[u64],
    answer: &mut [u64],
) -> Answered
    ensures { QuestionPromise (question_lent book.now memory.old filled anew question.now answer.old)
        (question_returned result memory.new answer.new) }
{
    Answered::from(memory_question::answer_question(book, memory, filled, anew, question, answer))
}

#[unsafe(no_mangle)]
pub extern "C" fn esquirmell_filter_body(book: &[u8], id: u32) -> Part
    ensures { PartPromise book.now id (part_in result) }
{
    book_filter_body::part_of(book, id)
}
