// Is this a book? `check_book` is a public call: it gives one of the refusals 1 to 7, or none, for any bytes of
// any length.
// One function a refusal, each an equation to the definition in rules/specs/Book.antt.
// Every other `pub` is for sister crates: `accept` gives a Book, which is an accepted one, seen as its bytes.
// Read next: book_planner and book_filter_body.
#![tactic(auto)]

ghost use Rattle.std.specs.Prelude.{◌≡◌, ◌+◌, ◌*◌, ◌^◌, ◌<◌, ◌≤◌, length, IfOk};
ghost use Rattle.lists.specs.Below.{some_below};
ghost use Rattle.rules.specs.Bytes.{entry_at};
ghost use Rattle.rules.specs.Book.{filter_count, states_before, book_short, ids_fall, bad_sizes, bodies_astray};
ghost use Rattle.rules.specs.Book.{state_width, id_of, body_start, body_size, book_refusal};
ghost use Rattle.rules.specs.Promise.{BookPromise};
ghost use Rattle.refusals.specs.Numbers.{refused};
ghost use Rattle.book_contents.specs.BookAccepted.{empty_at};

use refusals::Refusal;
use std::marker::Model;

#[tactic(auto, using(crate::specs::Steps::short_bare, crate::specs::Steps::short_is))]
fn short(book: &[u8]) -> bool
    ensures { result ≡ book_short book.now }
{
    book.len() < 2 || book.len() < book_contents::contents_end(book)
}

fn ids_fall(book: &[u8]) -> bool
    requires { entry_at (filter_count book.now) ≤ length book.now }
    ensures { result ≡ ids_fall book.now }
{
    let f = book_contents::filter_count(book);
    (1..f).any(|k| book_contents::id_of(book, k) <= book_contents::id_of(book, k - 1))
}

fn some_empty(book: &[u8]) -> bool
    requires { entry_at (filter_count book.now) ≤ length book.now }
    ensures { result ≡ some_below (empty_at book.now) (filter_count book.now) }
{
    (0..book_contents::filter_count(book)).any(|k| book_contents::body_size(book, k) == 0)
}

#[tactic(auto, using(crate::specs::Steps::summed_next, crate::specs::Steps::summed_all))]
fn total(book: &[u8]) -> usize
    requires { entry_at (filter_count book.now) ≤ length book.now }
    ensures { result ≡ states_before book.now (filter_count book.now) }
{
    // A for: the sum is bounded turn by turn.
    let mut sum = 0;
    for k in 0..book_contents::filter_count(book) {
        sum += book_contents::body_size(book, k);
    }
    sum
}

#[tactic(auto, using(crate::specs::Steps::sizes_is), unfolding(rules::specs::Book::bad_sizes))]
fn bad_sizes(book: &[u8]) -> bool
    requires { entry_at (filter_count book.now) ≤ length book.now }
    ensures { result ≡ bad_sizes book.now }
{
    some_empty(book) || book_contents::STATES < total(book)
}

// `place` is where the next body must start; after the last one it is where the book must end.
#[tactic(auto, using(crate::specs::Steps::placed_laws))]
fn bodies_astray(book: &[u8]) -> bool
    requires { entry_at (filter_count book.now) ≤ length book.now }
    ensures { result ≡ bodies_astray book.now }
{
    let mut place = book_contents::contents_end(book);
    for k in 0..book_contents::filter_count(book) {
        if book_contents::body_start(book, k) != place {
            return true;
        }
        place += book_contents::body_length(book, k);
    }
    book.len() != place
}

#[tactic(auto, using(crate::specs::Refused::book_laws))]
pub fn check_book(book: &[u8]) -> Result<(), Refusal>
    ensures { BookPromise book.now (refused result) }
{
    if short(book) {
        return Err(Refusal::BookShort);
    }
    if book_contents::FILTERS < book_contents::filter_count(book) {
        return Err(Refusal::ManyFilters);
    }
    if ids_fall(book) {
        return Err(Refusal::IdsFall);
    }
    if bad_sizes(book) {
        return Err(Refusal::BadSizes);
    }
    if bodies_astray(book) {
        return Err(Refusal::BodiesAstray);
    }
    if book_rows::bad_rows(book) {
        return Err(Refusal::BadRows);
    }
    if book_rows::bad_successors(book) {
        return Err(Refusal::BadSuccessors);
    }
    Ok(())
}

// A book that is accepted: its bytes.
#[derive(Drop)]
pub struct Book<'a> {
    bytes: &'a [u8],
}

impl<'a> Model for Book<'a> {
    ghost use Rattle.std.specs.Prelude.{◌≡◌, ℕ, List};
    ghost use Rattle.rules.specs.Book.{book_refusal};

    ghost Value = { List ℕ };

    ghost view = { λ b. b.bytes.now };

    ghost invariant = { λ b. book_refusal b.bytes.now ≡ 0 };
}

// The book, unless it is refused.
pub fn accept(book: &[u8]) -> Result<Book<'_>, Refusal>
    ensures promise { BookPromise book.now (refused result) }
    ensures same { IfOk result (λ b. b ≡ book.now) }
{
    check_book(book)?;
    Ok(Book { bytes: book })
}

impl<'a> Book<'a> {
    pub fn bytes(&self) -> &'a [u8]
        ensures same { result.now ≡ self.now }
        ensures accepted { book_refusal self.now ≡ 0 }
    {
        self.bytes
    }

    #[tactic(auto, using(book_contents::specs::BookAccepted::table_inside))]
    pub fn filter_count(&self) -> usize
        ensures count { (result ≡ filter_count self.now) × (result < 65536) }
        ensures accepted { book_refusal self.now ≡ 0 }
    {
        book_contents::filter_count(self.bytes)
    }

    pub fn id_of(&self, k: usize) -> u64
        requires { k < filter_count self.now }
        ensures { (result ≡ id_of self.now k) × (result < 2 ^ 32) }
    {
        book_contents::id_of(self.bytes, k)
    }

    pub fn body_start(&self, k: usize) -> usize
        requires { k < filter_count self.now }
        ensures { (result ≡ body_start self.now k) × (result < 65536) }
    {
        book_contents::body_start(self.bytes, k)
    }

    // The states of a body.
    pub fn body_size(&self, k: usize) -> usize
        requires { k < filter_count self.now }
        ensures { (result ≡ body_size self.now k) × (result < 65536) }
    {
        book_contents::body_size(self.bytes, k)
    }

    // The bytes of a body.
    pub fn body_length(&self, k: usize) -> usize
        requires { k < filter_count self.now }
        ensures { (result ≡ state_width * body_size self.now k) × (result < 2 ^ 20) }
    {
        book_contents::body_length(self.bytes, k)
    }
}
