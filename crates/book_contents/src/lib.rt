// The book's layout: its table of contents, read entry by entry, and where the states of a body stand. Its `pub` is for
// sister crates only: they know that the table is whole. Any bytes are lent as a book, so each function asks for those
// that it reads; book_check::Book asks for none.
// specs/BookAccepted.antt says what an accepted book gives. Read next: book_check, which accepts or refuses.
#![tactic(auto)]

ghost use Rattle.std.specs.Prelude.{◌≡◌, ◌+◌, ◌*◌, ◌^◌, ◌<◌, ◌≤◌, length};
ghost use Rattle.rules.specs.Bytes.{entry_at};
ghost use Rattle.rules.specs.Book.{state_width, filter_count, id_of, body_start, body_size};
ghost use Rattle.book_contents.specs.Kinds.{Numbered};

// A book has at most so many filters.
pub const FILTERS: usize = 64;

// And at most so many states, all together.
pub const STATES: usize = 512;

// The bytes of a state.
const STATE: usize = 8;

// A state's kind: its first byte has the number.
#[derive(Clone, Copy, Debug, PartialEq, Eq)]
pub enum Kind {
    True,
    Leaf,
    And,
    Or,
    Not,
    Step,
}

// A byte that is the number of no kind.
#[derive(Clone, Copy, Debug, PartialEq, Eq)]
pub struct NoKind;

impl TryFrom<u64> for Kind {
    type Error = NoKind;

    ghost try_from_gives = { Numbered };

    fn try_from(byte: u64) -> Result<Kind, NoKind> {
        match byte {
            0 => Ok(Kind::True),
            1 => Ok(Kind::Leaf),
            2 => Ok(Kind::And),
            3 => Ok(Kind::Or),
            4 => Ok(Kind::Not),
            5 => Ok(Kind::Step),
            _ => Err(NoKind),
        }
    }
}

#[tactic(auto, unfolding(rules::specs::Book::filter_count))]
pub fn filter_count(book: &[u8]) -> usize
    requires { 2 ≤ length book.now }
    ensures { (result ≡ filter_count book.now) × (result < 65536) }
{
    // A u64 has no From into usize: as.
    number_bytes::read2(book, 0) as usize
}

// Where the contents end, and the first body must start.
pub fn contents_end(book: &[u8]) -> usize
    requires { 2 ≤ length book.now }
    ensures { (result ≡ entry_at (filter_count book.now)) × (result < 2 ^ 20) }
{
    number_bytes::entry_at(filter_count(book))
}

#[tactic(auto, using(crate::specs::Entries::id_is))]
pub fn id_of(book: &[u8], k: usize) -> u64
    requires { entry_at (k + 1) ≤ length book.now }
    ensures { (result ≡ id_of book.now k) × (result < 2 ^ 32) }
{
    number_bytes::read4(book, number_bytes::entry_at(k))
}

#[tactic(auto, using(crate::specs::Entries::start_is))]
pub fn body_start(book: &[u8], k: usize) -> usize
    requires { entry_at (k + 1) ≤ length book.now }
    ensures { (result ≡ body_start book.now k) × (result < 65536) }
{
    number_bytes::read2(book, number_bytes::entry_at(k) + 4) as usize
}

#[tactic(auto, using(crate::specs::Entries::size_is))]
pub fn body_size(book: &[u8], k: usize) -> usize
    requires { entry_at (k + 1) ≤ length book.now }
    ensures { (result ≡ body_size book.now k) × (result < 65536) }
{
    number_bytes::read2(book, number_bytes::entry_at(k) + 6) as usize
}

// A body's bytes.
pub fn body_length(book: &[u8], k: usize) -> usize
    requires { entry_at (k + 1) ≤ length book.now }
    ensures { (result ≡ state_width * body_size book.now k) × (result < 2 ^ 20) }
{
    STATE * body_size(book, k)
}

// Where state i stands, in the body that starts at a place.
pub fn state_at(start: usize, i: usize) -> usize
    requires { start + state_width * i < 2 ^ 64 }
    ensures { result ≡ start + state_width * i }
{
    start + STATE * i
}
