// The value of a text as an i32, and the six signed comparisons. Its `pub` is for sister crates only; none of its
// `pub` functions has a premise, and none is a public call.
// Crate rules says what a text's value is (Value) and what the relations are (State); specs/Meant says which of those
// values an answer is. Read specs/Meant first, then text_value from the bottom up. Read next: set_leaves.
#![tactic(auto)]

ghost use Rattle.std.specs.Prelude.{◌≡◌, ◌^◌, ◌<◌, ◌≤◌, drop, length, pos, neg_ℤ};
ghost use Rattle.lists.specs.Choice.{pick};
ghost use Rattle.rules.specs.Value.{is_space, strip_start, strip_end, in_range, digits_from, whole_number, text_value};
ghost use Rattle.rules.specs.State.{related as stands};
ghost use Rattle.rules.specs.Book.{relation_of};
ghost use Rattle.number_text.specs.Meant.{meant, meant_relation};
ghost use Rattle.number_text.specs.Laws.{Cut, Next};

// How far down a value may lie.
const LOWEST: u64 = 2147483648;

#[derive(Clone, Copy, Debug, PartialEq, Eq)]
pub enum Value {
    Number(i32),
    NoNumber,
    OutOfRange,
}

// The paper's four; is_ascii_whitespace has form feed too.
fn space(x: u8) -> bool
    ensures { result ≡ is_space x }
{
    // No branch between the four, as matches! has.
    (x == b' ') | (x == b'\t') | (x == b'\r') | (x == b'\n')
}

// n with its sign.
#[tactic(auto, using(crate::specs::Laws::signed_laws))]
fn signed(minus: bool, n: u64) -> i64
    requires { n < 2 ^ 63 }
    ensures { result ≡ pick minus (neg_ℤ (pos n)) (pos n) }
{
    if minus {
        -n.cast_signed()
    } else {
        n.cast_signed()
    }
}

// The value of the whole number n with its sign.
#[tactic(auto, using(crate::specs::Laws::range_laws))]
fn in_range(minus: bool, n: u64) -> Value
    requires { n < 2 ^ 63 }
    ensures { meant result ≡ in_range minus n }
{
    match i32::try_from(signed(minus, n)) {
        Ok(z) => Value::Number(z),
        Err(_) => Value::OutOfRange,
    }
}

// How many spaces the text starts with. A place and no part of the text: the loop then has nothing else to count.
#[tactic(auto, using(crate::specs::Laws::start_laws))]
fn spaces(s: &[u8]) -> usize
    ensures { Cut (strip_start s.now) (drop result s.now) result (length s.now) }
{
    // A for: what is left after each byte has its law.
    for i in 0..s.len() {
        if !space(s[i]) {
            return i;
        }
    }
    s.len()
}

// The text without the spaces at its start.
fn strip_start(s: &[u8]) -> &[u8]
    ensures { result.now ≡ strip_start s.now }
{
    &s[spaces(s)..]
}

// The text without the spaces at its end.
#[tactic(auto, using(crate::specs::Laws::end_laws))]
fn strip_end(s: &[u8]) -> &[u8]
    ensures { result.now ≡ strip_end s.now }
{
    // A for: what is left before each byte has its law.
    for i in (0..s.len()).rev() {
        if !space(s[i]) {
            return &s[..=i];
        }
    }
    &[]
}

// One digit more; past the range it stays past the range.
fn next(n: u64, x: u8) -> u64
    requires { (48 ≤ x) × (x ≤ 57) }
    ensures { Next n x result }
{
    if n <= LOWEST {
        n * 10 + u64::from(x - b'0')
    } else {
        LOWEST + 1
    }
}

#[tactic(auto, using(crate::specs::Laws::digit_laws))]
fn digits(s: &[u8], minus: bool) -> Value
    ensures { meant result ≡ digits_from minus 0 s.now }
{
    let mut n = 0;
    for x in s {
        if !x.is_ascii_digit() {
            return Value::NoNumber;
        }
        n = next(n, *x);
    }
    in_range(minus, n)
}

// The whole number that a text without spaces at its ends says.
#[tactic(auto, using(crate::specs::Laws::whole_laws))]
fn whole_number(s: &[u8]) -> Value
    ensures { meant result ≡ whole_number s.now }
{
    match s {
        [] | [b'-'] => Value::NoNumber,
        [b'-', rest @ ..] => digits(rest, true),
        _ => digits(s, false),
    }
}

#[tactic(auto, unfolding(rules::specs::Value::text_value))]
pub fn text_value(s: &[u8]) -> Value
    ensures { meant result ≡ text_value s.now }
{
    whole_number(strip_end(strip_start(s)))
}

// The relations that a LEAF may ask of a value: =, ≠, <, ≤, >, ≥.
#[derive(Clone, Copy, PartialEq, Eq, Debug)]
pub enum Relation {
    Equal,
    Differs,
    Below,
    AtMost,
    Above,
    AtLeast,
}

// A relation by its number in the book.
impl From<u64> for Relation {
    ghost from_gives = { λ number r. meant_relation r ≡ relation_of number };

    #[tactic(auto, using(crate::specs::Relations::from_laws))]
    fn from(number: u64) -> Relation {
        match number {
            1 => Relation::Equal,
            2 => Relation::Differs,
            3 => Relation::Below,
            4 => Relation::AtMost,
            5 => Relation::Above,
            _ => Relation::AtLeast,
        }
    }
}

impl Relation {
    // Whether a stands in the relation to b.
    #[tactic(auto, using(crate::specs::Relations::relation_laws))]
    pub fn related(self, a: i32, b: i32) -> bool
        ensures { result ≡ stands (meant_relation self) a b }
    {
        match self {
            Relation::Equal => a == b,
            Relation::Differs => a != b,
            Relation::Below => a < b,
            Relation::AtMost => a <= b,
            Relation::Above => a > b,
            Relation::AtLeast => a >= b,
        }
    }
}
