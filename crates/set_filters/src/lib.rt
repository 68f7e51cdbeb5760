// The filters of a message at its root, where no question is asked. Its `pub` is for sister crates only.
// A filter's state 0 may be an AND, an OR or a NOT, so the root's set is completed before a filter is read off it.
// Read filters first; what an accepted book has, book_contents/specs/BookAccepted says.
#![tactic(auto)]

ghost use Rattle.std.specs.Prelude.{◌≡◌, ◌*◌, ◌^◌, ◌<◌, ◌≤◌, length};
ghost use Rattle.lists.specs.Below.{bit};
ghost use Rattle.rules.specs.Book.{most_filters, book_refusal, states_of};
ghost use Rattle.rules.specs.Match.{filters_where};
ghost use Rattle.rules.specs.Sets.{set_width, has as member, completed};
ghost use Rattle.book_plan.specs.Plan.{PlanOf};

use book_check::Book;
use book_plan::Plan;

// The number whose bit k is b.
#[tactic(auto, using(crate::specs::Filters::flag_laws))]
fn flag(b: bool, k: usize) -> u64
    requires { k < most_filters }
    ensures { result ≡ bit b * 2 ^ k }
{
    u64::from(b) << k
}

// The filters whose state 0 the set holds.
#[tactic(auto, using(crate::specs::Filters::root_laws))]
fn filters_of(book: &Book<'_>, set: &[u64]) -> u64
    requires { set_width ≤ length set.now }
    ensures read_off { result ≡ filters_where book.now (member set.now) }
    ensures accepted { book_refusal book.now ≡ 0 }
{
    let mut r = 0;
    let mut first = 0;
    for k in 0..book.filter_count() {
        r += flag(set_bits::has(set, first), k);
        first += book.body_size(k);
    }
    r
}

#[tactic(auto, using(crate::specs::Filters::reads_completed))]
pub fn filters(book: &Book<'_>, plan: &Plan, set: &[u64]) -> u64
    requires { PlanOf plan.now book.now × (length set.now ≡ set_width) }
    ensures { result ≡ filters_where book.now (completed (states_of book.now) set.now) }
{
    let mut done = [0u64; set_bits::WIDTH];
    set_complete::complete(plan, set, &mut done);
    filters_of(book, &done)
}
