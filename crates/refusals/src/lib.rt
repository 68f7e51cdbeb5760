// Refusals: a case for each, with its number in the table of refusals, and a message's with its place. Its `pub` is for
// sister crates only; nothing has a premise. When each is given: rules, by the numbers; 14, 18 and 19 are not the
// paper's (docs/DECISIONS.md).
// specs/Numbers says the number that a result comes to, 0 where nothing is refused. Read next: book_check.
#![tactic(auto)]

ghost use Rattle.std.specs.Prelude.{◌≡◌};
ghost use Rattle.refusals.specs.Numbers.{number_of};

#[derive(Clone, Copy, Debug, PartialEq, Eq)]
pub enum Refusal {
    // a book
    BookShort = 1,
    ManyFilters = 2,
    IdsFall = 3,
    BadSizes = 4,
    BodiesAstray = 5,
    BadRows = 6,
    BadSuccessors = 7,
    // a day file
    DayOff = 8,
    ManyMessages = 9,
    MessagesAstray = 10,
    // what is lent to a run
    FewAnswers = 11,
    FewLevels = 12,
    // what is lent to a pass or a question
    OverFilled = 14,
    QuestionShape = 18,
    GreatCount = 19,
    // a message, at a place
    BadKind = 21,
    EventCut = 22,
    AnyLabel = 23,
    StartAstray = 24,
    ManyOpen = 25,
    TextAstray = 26,
    OutOfRange = 27,
    EndAstray = 28,
    TopMissing = 29,
}

impl From<Refusal> for u64 {
    ghost from_gives = { λ e n. n ≡ number_of e };

    fn from(e: Refusal) -> u64 {
        // A case's number: only as reads it.
        e as u64
    }
}

// A message's refusal, and the place in its body.
#[derive(Clone, Copy, Debug, PartialEq, Eq)]
pub struct Refused {
    pub refusal: Refusal,
    pub place: usize,
}
