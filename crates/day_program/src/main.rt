// The day program: reads book.bin and day.bin, lends 64 slots and room for 1,024 messages, and prints each message's
// row and the total.
// What it prints is tested, not proved; all that matters is in day_run.
#![tactic(auto)]

ghost use Rattle.std.specs.Prelude.{◌<◌, ◌≤◌, length};
ghost use Rattle.rules.specs.Book.{most_filters};

use day_row::ROW;
use day_run::Total;
use std::fs::File;
use std::io;
use std::io::Read;
use std::rt::Files;

// The longest files that it reads; the slots and the messages that it lends room for.
const BOOK: usize = 4610;

const DAY: usize = 32768;

const SLOTS: usize = 64;

const MESSAGES: usize = 1024;

// Reads into the front of buf until it is full, the file ends or a read fails: how many bytes.
fn read_full(file: &mut impl Read, buf: &mut [u8]) -> usize
    ensures { result ≤ length buf.new }
{
    let mut done = 0;
    // An input of unknown length, no count: a while.
    while done < buf.len() {
        let n = file.read(&mut buf[done..]).unwrap_or(0);
        if n == 0 {
            break;
        }
        done += n;
    }
    done
}

// Reads a file into the front of buf: how many bytes, 0 where it is missing or can't be opened.
fn load(rt: &impl Files, path: &str, buf: &mut [u8]) -> usize
    ensures { result ≤ length buf.new }
{
    File::open(rt, path).map_or(0, |mut file| read_full(&mut file, buf))
}

// The id of filter k, where it is true.
fn put_id(rt: &impl Print, book: &[u8], filters: u64, k: usize) -> io::Result<()>
    requires { k < most_filters }
{
    let at = number_bytes::entry_at(k);
    if (filters >> k) % 2 == 1 && at + 4 <= book.len() {
        print!(rt; " {}", number_bytes::read4(book, at))?;
    }
    Ok(())
}

// Message k's row, with the ids of the true filters in contents order.
fn put_row(rt: &impl Print, book: &[u8], k: usize, row: &[u64; ROW]) -> io::Result<()> {
    let [refusal, place, filters] = *row;
    print!(rt; "{k} {refusal} {place}")?;
    for f in 0..book_contents::FILTERS {
        put_id(rt, book, filters, f)?;
    }
    println!(rt)
}

fn put_rows(rt: &impl Print, book: &[u8], answers: &[u64], count: usize) -> io::Result<()> {
    let (rows, _) = answers.as_chunks::<ROW>();
    for (k, row) in (1..=count).zip(rows) {
        put_row(rt, book, k, row)?;
    }
    Ok(())
}

fn show(
    rt: &impl Print,
    book: &[u8],
    day: &[u8],
    memory: &mut [u64],
    answers: &mut [u64],
    workspace: &mut [u64],
) -> io::Result<()> {
    let given = day_run::run(book, day, memory, answers, workspace);
    let count = match day {
        [a, b, ..] if given.is_ok() => usize::from(u16::from_le_bytes([*a, *b])),
        _ => 0,
    };
    let t = Total::from(given);
    put_rows(rt, book, answers, count)?;
    println!(rt;
        "total {} {count} {} {} {}",
        t.refusal, t.asked, t.anew, t.filled
    )
}

fn main(rt: HostRuntime) -> io::Result<()> {
    // A byte more than is read of each file tells one that is too long.
    let mut book = [0u8; BOOK + 1];
    let mut day = [0u8; DAY + 1];
    let nb = load(&rt, "book.bin", &mut book);
    let nd = load(&rt, "day.bin", &mut day);
    if BOOK < nb || DAY < nd {
        return println!(rt; "too long");
    }
    let mut memory = [0u64; SLOTS * memory_slots::SLOT];
    let mut answers = [0u64; MESSAGES * ROW];
    let mut workspace = [0u64; message_levels::WORKSPACE];
    show(
        &rt,
        &book[..nb],
        &day[..nd],
        &mut memory,
        &mut answers,
        &mut workspace,
    )
}
