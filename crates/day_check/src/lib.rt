// Is this a day file? `check_day` is a public call: it gives one of the refusals 8 to 10, or none, for any bytes of
// any length.
// Every other `pub` is for sister crates: `accept` gives a Day, which is an accepted one, seen as its bytes, with its
// message count and each message as a part of the file's own slice.
// Definitions: rules/specs/DayFile.antt; what acceptance gives: specs/DayAccepted.antt.
#![tactic(auto)]

ghost use Rattle.std.specs.Prelude.{◌≡◌, ◌+◌, ◌^◌, ◌<◌, ◌≤◌, length, IfOk};
ghost use Rattle.rules.specs.Bytes.{entry_at};
ghost use Rattle.rules.specs.DayFile.{message_count, message_start, message_length, message_body, day_off};
ghost use Rattle.rules.specs.DayFile.{messages_astray};
ghost use Rattle.rules.specs.DayFile.{day_refusal};
ghost use Rattle.rules.specs.Promise.{DayPromise};
ghost use Rattle.refusals.specs.Numbers.{refused};

use refusals::Refusal;
use std::marker::Model;

// A day file has at most so many messages.
const MESSAGES: usize = 4096;

// And at most so many bytes.
const BYTES: usize = 1048576;

#[tactic(auto, unfolding(rules::specs::DayFile::message_count))]
pub fn message_count(day: &[u8]) -> usize
    requires { 2 ≤ length day.now }
    ensures { (result ≡ message_count day.now) × (result < 65536) }
{
    // A u64 has no From into usize: as.
    number_bytes::read2(day, 0) as usize
}

#[tactic(auto, using(crate::specs::Entries::start_is))]
fn message_start(day: &[u8], k: usize) -> usize
    requires { entry_at (k + 1) ≤ length day.now }
    ensures { (result ≡ message_start day.now k) × (result < 2 ^ 32) }
{
    number_bytes::read4(day, number_bytes::entry_at(k)) as usize
}

#[tactic(auto, using(crate::specs::Entries::length_is))]
fn message_length(day: &[u8], k: usize) -> usize
    requires { entry_at (k + 1) ≤ length day.now }
    ensures { (result ≡ message_length day.now k) × (result < 2 ^ 32) }
{
    number_bytes::read4(day, number_bytes::entry_at(k) + 4) as usize
}

#[tactic(auto, using(crate::specs::Steps::off_laws), unfolding(rules::specs::DayFile::day_off))]
fn off(day: &[u8]) -> bool
    ensures { result ≡ day_off day.now }
{
    day.len() < 2 || day.len() < number_bytes::entry_at(message_count(day)) || BYTES < day.len()
}

// `place` is where the next message must start; after the last one it is where the file must end.
// As bodies_astray of book_check: each is one equation to its own definition.
#[tactic(auto, using(crate::specs::Steps::placed_laws))]
fn messages_astray(day: &[u8]) -> bool
    requires { entry_at (message_count day.now) ≤ length day.now }
    ensures { result ≡ messages_astray day.now }
{
    let n = message_count(day);
    let mut place = number_bytes::entry_at(n);
    for k in 0..n {
        if message_start(day, k) != place {
            return true;
        }
        place += message_length(day, k);
    }
    day.len() != place
}

#[tactic(auto, using(crate::specs::Steps::day_laws))]
pub fn check_day(day: &[u8]) -> Result<(), Refusal>
    ensures { DayPromise day.now (refused result) }
{
    if off(day) {
        return Err(Refusal::DayOff);
    }
    if MESSAGES < message_count(day) {
        return Err(Refusal::ManyMessages);
    }
    if messages_astray(day) {
        return Err(Refusal::MessagesAstray);
    }
    Ok(())
}

// A day file that is accepted: its bytes.
#[derive(Drop)]
pub struct Day<'a> {
    bytes: &'a [u8],
}

impl<'a> Model for Day<'a> {
    ghost use Rattle.std.specs.Prelude.{◌≡◌, ℕ, List};
    ghost use Rattle.rules.specs.DayFile.{day_refusal};

    ghost Value = { List ℕ };

    ghost view = { λ d. d.bytes.now };

    ghost invariant = { λ d. day_refusal d.bytes.now ≡ 0 };
}

// The day file, unless it is refused.
pub fn accept(day: &[u8]) -> Result<Day<'_>, Refusal>
    ensures promise { DayPromise day.now (refused result) }
    ensures same { IfOk result (λ d. d ≡ day.now) }
{
    check_day(day)?;
    Ok(Day { bytes: day })
}

impl<'a> Day<'a> {
    #[tactic(auto, using(crate::specs::DayAccepted::day_two))]
    pub fn message_count(&self) -> usize
        ensures count { (result ≡ message_count self.now) × (result < 65536) }
        ensures accepted { day_refusal self.now ≡ 0 }
    {
        message_count(self.bytes)
    }

    // The message is read from its own part of the day file.
    #[tactic(auto, using(crate::specs::DayAccepted::message_inside, crate::specs::DayAccepted::message_is))]
    pub fn message_body(&self, k: usize) -> &'a [u8]
        requires { k < message_count self.now }
        ensures body { result.now ≡ message_body self.now k }
        ensures accepted { day_refusal self.now ≡ 0 }
    {
        let start = message_start(self.bytes, k);
        let n = message_length(self.bytes, k);
        &self.bytes[start..start + n]
    }
}
