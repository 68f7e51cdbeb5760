// A message's row among the answers: the filters at the root of a message that is read, and the row's numbers put in
// their place. Its `pub` is for sister crates only: a caller shows the plan, the levels and the room for the row.
// Read specs/Row first. Read next: day_pass.
#![tactic(auto)]

ghost use Rattle.std.specs.Prelude.{◌≡◌, ◌+◌, ◌*◌, ◌≤◌, length};
ghost use Rattle.lists.specs.Parts.{patch};
ghost use Rattle.rules.specs.Run.{row_width, workspace_width};
ghost use Rattle.book_plan.specs.Plan.{PlanOf};
ghost use Rattle.day_row.specs.Row.{root_filters, row_of};

use book_check::Book;
use book_plan::Plan;
use refusals::Refused;

// A message's answer numbers: refusal, place, filters.
pub const ROW: usize = 3;

// The filters of a message that is read, by the root's set in level 0; a refused message matches none.
#[tactic(auto, using(message_levels::specs::Laws::set_long))]
pub fn root_filters(
    book: &Book<'_>,
    plan: &Plan,
    workspace: &[u64],
    read: Result<(), Refused>,
) -> Result<u64, Refused>
    requires plan_of { PlanOf plan.now book.now }
    requires levels_lent { workspace_width ≤ length workspace.now }
    ensures { result ≡ root_filters book.now workspace.now read }
{
    read?;
    Ok(set_filters::filters(book, plan, message_levels::set_of(workspace, 0)))
}

// A message's answer numbers.
fn row_of(filters: Result<u64, Refused>) -> [u64; ROW]
    ensures { result ≡ row_of filters }
{
    match filters {
        Ok(f) => [0, 0, f],
        // A usize has no From into u64: as.
        Err(e) => [u64::from(e.refusal), e.place as u64, 0],
    }
}

// A message's answer numbers in their place.
#[tactic(auto, using(crate::specs::Row::row_kept))]
pub fn write_row(answers: &mut [u64], k: usize, filters: Result<u64, Refused>)
    requires { row_width * k + row_width ≤ length answers.old }
    ensures { answers.new ≡ patch answers.old (row_width * k) (row_of filters) }
{
    let a = ROW * k;
    answers[a..a + ROW].copy_from_slice(&row_of(filters));
}
