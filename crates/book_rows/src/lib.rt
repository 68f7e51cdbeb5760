// Refusals 6 and 7 of a book whose bodies are where they must be: states that are no row of the table of kinds, and
// successors that lead astray.
// Its `pub` is for sister crates only. A state's 8 bytes are read once, and decided on by its kind. Read next:
// book_check.
#![tactic(auto)]

ghost use Rattle.std.specs.Prelude.{◌≡◌, ℕ, not, false, ◌^◌, ◌+◌, ◌*◌, ◌<◌, ◌≤◌, length};
ghost use Rattle.lists.specs.Below.{AnyBelow};
ghost use Rattle.rules.specs.Bytes.{entry_at};
ghost use Rattle.rules.specs.Book.{state_width, filter_count, bodies_astray, is_row, leads_well, row_at, leads_at};
ghost use Rattle.rules.specs.Book.{bad_rows, bad_successors};
ghost use Rattle.book_rows.specs.Rows.{Answers, SomeState};

use book_contents::Kind;

// The kind comes as its number, as the rules' is_row and leads_well have it.
#[tactic(auto, unfolding(rules::specs::Book::is_row, lists::specs::Choice::pick))]
fn is_row(kind: u64, one: u64, x: u64, y: u64, z: u64) -> bool
    ensures { result ≡ is_row kind one x y z }
{
    match Kind::try_from(kind) {
        Ok(Kind::True) => one == 0 && x == 0 && y == 0 && z == 0,
        Ok(Kind::Leaf) => 1 <= one && one <= 6 && x == 0,
        Ok(Kind::And | Kind::Or | Kind::Step) => one == 0 && z == 0,
        Ok(Kind::Not) => one == 0 && y == 0 && z == 0,
        Err(_) => false,
    }
}

#[tactic(auto, unfolding(rules::specs::Book::leads_well, lists::specs::Choice::pick))]
fn leads_well(kind: u64, x: u64, y: u64, i: u64, n: u64) -> bool
    ensures { result ≡ leads_well kind x y i n }
{
    match Kind::try_from(kind) {
        Ok(Kind::And | Kind::Or) => i < x && x < n && i < y && y < n,
        Ok(Kind::Not) => i < x && x < n,
        Ok(Kind::Step) => y < n,
        _ => true,
    }
}

#[tactic(auto, using(crate::specs::Rows::no_row_is))]
fn no_row(book: &[u8], at: usize) -> bool
    requires { at + state_width ≤ length book.now }
    ensures { result ≡ not (row_at book.now at) }
{
    let x = number_bytes::read2(book, at + 2);
    let y = number_bytes::read2(book, at + 4);
    let z = number_bytes::read2(book, at + 6);
    !is_row(
        number_bytes::byte(book, at),
        number_bytes::byte(book, at + 1),
        x,
        y,
        z,
    )
}

#[tactic(auto, using(crate::specs::Rows::astray_is))]
fn leads_astray(book: &[u8], at: usize, i: u64, n: u64) -> bool
    requires { at + state_width ≤ length book.now }
    ensures { result ≡ not (leads_at book.now at i n) }
{
    let x = number_bytes::read2(book, at + 2);
    let y = number_bytes::read2(book, at + 4);
    !leads_well(number_bytes::byte(book, at), x, y, i, n)
}

// Whether a state of the body passes the test, which is given the state's place, its number and the body's size.
fn some_of_body<F: Fn(usize, usize, usize) -> bool>(test: &F, start: usize, n: usize) -> bool
    requires fits { start + state_width * n < 2 ^ 64 }
    requires callable { (i : ℕ) → i < n → F.pre test.now (start + state_width * i) i n }
    ensures { AnyBelow (Answers (F.post test.now) start n) n result }
{
    // A for: the test is a parameter, and any would need its contract twice.
    for i in 0..n {
        if test(book_contents::state_at(start, i), i, n) {
            return true;
        }
    }
    false
}

// Whether a state of some body does.
fn some_state<F: Fn(usize, usize, usize) -> bool>(book: &[u8], test: F) -> bool
    requires placed { (entry_at (filter_count book.now) ≤ length book.now) × (bodies_astray book.now ≡ false) }
    requires callable { (at i n : ℕ) → at + state_width ≤ length book.now → F.pre test at i n }
    ensures { SomeState (F.post test) book.now result }
{
    // A for, as above.
    for k in 0..book_contents::filter_count(book) {
        let start = book_contents::body_start(book, k);
        if some_of_body(&test, start, book_contents::body_size(book, k)) {
            return true;
        }
    }
    false
}

pub fn bad_rows(book: &[u8]) -> bool
    requires { (entry_at (filter_count book.now) ≤ length book.now) × (bodies_astray book.now ≡ false) }
    ensures { result ≡ bad_rows book.now }
{
    some_state(book, |at, _, _| no_row(book, at))
}

pub fn bad_successors(book: &[u8]) -> bool
    requires { (entry_at (filter_count book.now) ≤ length book.now) × (bodies_astray book.now ≡ false) }
    ensures { result ≡ bad_successors book.now }
{
    // A usize has no From into u64: as.
    some_state(book, |at, i, n| leads_astray(book, at, i as u64, n as u64))
}
