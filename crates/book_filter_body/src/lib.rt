// The desk's calls for one filter's body, both public: a book that is refused, or that has no such id, gives an empty
// part.
// `filter_body` hands back a part of the caller's own slice; `part_of` gives the same as a start and a length, for
// callers that cannot be handed a reference.
// Promises: rules/specs/Promise.antt, BodyPromise and PartPromise; definitions: Book.antt there.
#![tactic(auto)]

ghost use Rattle.std.specs.Prelude.{◌≡◌};
ghost use Rattle.rules.specs.Book.{filter_count, part_among};
ghost use Rattle.rules.specs.Promise.{BodyPromise, PartPromise};
ghost use Rattle.book_filter_body.specs.Found.{part_in};

use book_check::Book;

// (0, 0) is none, for C and by part_among: no Option.
#[repr(C)]
#[derive(Clone, Copy, Debug, PartialEq, Eq)]
pub struct Part {
    pub start: usize,
    pub length: usize,
}

// The part of no body.
const NOWHERE: Part = Part {
    start: 0,
    length: 0,
};

// From the last entry back to the first, as the definition looks.
#[tactic(auto, using(crate::specs::Found::looking_laws))]
fn look(book: &Book<'_>, id: u64) -> Part
    ensures { part_in result ≡ part_among book.now id (filter_count book.now) }
{
    // A for: what is left before each entry has its law.
    for k in (0..book.filter_count()).rev() {
        if book.id_of(k) == id {
            return Part {
                start: book.body_start(k),
                length: book.body_length(k),
            };
        }
    }
    NOWHERE
}

// Where the body stands in the book; (0, 0) where there is none.
#[tactic(auto, using(crate::specs::Found::part_laws, refusals::specs::Laws::number_positive))]
pub fn part_of(book: &[u8], id: u32) -> Part
    ensures { PartPromise book.now id (part_in result) }
{
    match book_check::accept(book) {
        Ok(book) => look(&book, u64::from(id)),
        Err(_) => NOWHERE,
    }
}

pub fn filter_body(book: &[u8], id: u32) -> &[u8]
    ensures { BodyPromise book.entry id result }
{
    let p = part_of(book, id);
    let start = p.start;
    let n = p.length;
    &book[start..start + n]
}
