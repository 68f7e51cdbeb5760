// Two public calls: a run over a day file, and the pass from any filled slots. Neither has a premise: what can't be
// run is refused and nothing lent is altered.
// Promises: rules/specs/Promise.antt, RunPromise and PassPromise; definitions: Run.antt and Calls.antt there.
#![tactic(auto)]

ghost use Rattle.std.specs.Prelude.{◌≡◌};
ghost use Rattle.rules.specs.Calls.{counts};
ghost use Rattle.rules.specs.Promise.{lent, RunPromise, PassPromise};
ghost use Rattle.day_run.specs.Calls.{total_of, returned};

use memory_ask::Counts;
use refusals::Refusal;

// What a call gives, as other languages have it: the refusal's number, 0 where nothing is refused, and the counts
// asked, worked out anew and filled, zero where the call is refused.
#[repr(C)]
#[derive(Clone, Copy, Debug, PartialEq, Eq)]
pub struct Total {
    pub refusal: u64,
    pub asked: u64,
    pub anew: u64,
    pub filled: usize,
}

impl From<Result<Counts, Refusal>> for Total {
    ghost from_gives = { λ r t. t ≡ total_of r };

    fn from(given: Result<Counts, Refusal>) -> Total {
        match given {
            Ok(c) => Total {
                refusal: 0,
                asked: c.asked,
                anew: c.anew,
                filled: c.filled,
            },
            Err(e) => Total {
                refusal: u64::from(e),
                asked: 0,
                anew: 0,
                filled: 0,
            },
        }
    }
}

// The run: the pass from no filled slots.
#[tactic(auto, using(crate::specs::Laws::run_from_none))]
pub fn run(
    book: &[u8],
    day: &[u8],
    memory: &mut [u64],
    answers: &mut [u64],
    workspace: &mut [u64],
) -> Result<Counts, Refusal>
    ensures { RunPromise (lent book.now day.now memory.old answers.old workspace.old)
        (returned (total_of result) memory.new answers.new workspace.new) }
{
    pass_from(book, day, memory, answers, workspace, 0, 0, 0)
}

// The pass over the messages from any filled slots, right or wrong.
#[tactic(auto, using(crate::specs::Laws::from_laws))]
pub fn pass_from(
    book: &[u8],
    day: &[u8],
    memory: &mut [u64],
    answers: &mut [u64],
    workspace: &mut [u64],
    asked: u64,
    anew: u64,
    filled: usize,
) -> Result<Counts, Refusal>
    ensures { PassPromise (lent book.now day.now memory.old answers.old workspace.old) (counts asked anew filled)
        (returned (total_of result) memory.new answers.new workspace.new) }
{
    let from = Counts {
        asked,
        anew,
        filled,
    };
    let (book, day) = day_refusals::pass_refusal(book, day, memory, answers, workspace, from)?;
    Ok(day_pass_alone::pass_alone(&book, &day, memory, answers, workspace, from))
}
