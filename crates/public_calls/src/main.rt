// Makes each public call of the engine, and prints what it gives; file stdout holds what the paper wants, worked out
// by hand as follows.
//
// The book has two filters: id 7, TRUE, at byte 18; id 1,414,746,705, STEP 1 to 1 and LEAF > 5, at byte 26. Through the
// book they are states 0, 1 and 2. The day has two messages, an element 1 that says 7 and one that says 5. `book` and
// `day`: both are accepted, and each with its last byte cut off is refused, by 5 and by 10.
// `part`: the body of the second filter, 16 bytes from byte 26, and then that of an id that no filter has. `body`: its
// bytes.
// The run has one slot. The first message asks state 2 under label 1: bit 2 is 4, and the answer is state 1, the STEP.
// The second asks the empty set under label 1, which is worked out and finds no slot. `run`: refusal 0, asked 2, anew
// 2, filled 1. `rows`: both filters, and the first alone. `slot`: what the first message asked, and its answer.
// The pass from that slot takes the first answer from it and works the second out. `pass`: asked 4, anew 3, filled 1.
// The inner call asked the slot's question gives its answer and leaves the counts: `inner` and `answer`.
#![tactic(auto)]

use day_run::Total;
use memory_question::Answered;
use refusals::Refusal;
use std::fmt::Display;
use std::io;

// The second filter's id, and one that no filter has.
const IDS: [u32; 2] = [1414746705, 8];

// A line: a word and some values. Programs share no crate, so each has its own.
fn put_line<T: Display>(rt: &impl Print, word: &str, values: &[T]) -> io::Result<()> {
    print!(rt; "{word}")?;
    for x in values {
        print!(rt; " {x}")?;
    }
    println!(rt)
}

// A line: a word, and what a run or a pass gives.
fn put_total(rt: &impl Print, word: &str, t: Total) -> io::Result<()> {
    println!(rt; "{word} {} {} {} {}", t.refusal, t.asked, t.anew, t.filled)
}

fn but_the_last(w: &[u8]) -> &[u8] {
    match w {
        [front @ .., _] => front,
        [] => w,
    }
}

// The number of a refusal, 0 where nothing is refused.
fn number(checked: Result<(), Refusal>) -> u64 {
    checked.err().map_or(0, u64::from)
}

fn check_both(rt: &impl Print, book: &[u8], day: &[u8]) -> io::Result<()> {
    let books = [book, but_the_last(book)];
    put_line(
        rt,
        "book",
        &books.map(|b| number(book_check::check_book(b))),
    )?;
    let days = [day, but_the_last(day)];
    put_line(rt, "day", &days.map(|d| number(day_check::check_day(d))))
}

fn find_bodies(rt: &impl Print, book: &[u8]) -> io::Result<()> {
    for id in IDS {
        let part = book_filter_body::part_of(book, id);
        println!(rt; "part {} {}", part.start, part.length)?;
    }
    for id in IDS {
        put_line(rt, "body", book_filter_body::filter_body(book, id))?;
    }
    Ok(())
}

fn run_it(rt: &impl Print, book: &[u8], day: &[u8], memory: &mut [u64]) -> io::Result<()> {
    let mut answers = [9u64; 2 * day_row::ROW];
    let mut workspace = [5u64; message_levels::WORKSPACE];
    let given = day_run::run(book, day, memory, &mut answers, &mut workspace);
    put_total(rt, "run", Total::from(given))?;
    put_line(rt, "rows", &answers)?;
    put_line(rt, "slot", memory)
}

// The pass from the slot and the counts that the run left.
fn pass_it(rt: &impl Print, book: &[u8], day: &[u8], memory: &mut [u64]) -> io::Result<()> {
    let mut answers = [9u64; 2 * day_row::ROW];
    let mut workspace = [5u64; message_levels::WORKSPACE];
    let given = day_run::pass_from(book, day, memory, &mut answers, &mut workspace, 2, 2, 1);
    put_total(rt, "pass", Total::from(given))?;
    put_line(rt, "rows", &answers)
}

// The inner call, asked what the slot asks.
fn ask_it(rt: &impl Print, book: &[u8], memory: &mut [u64]) -> io::Result<()> {
    let mut q = [0u64; memory_slots::QUESTION];
    q[0] = 4;
    q[memory_slots::LABEL] = 1;
    let mut answer = [9u64; memory_slots::ANSWER];
    let given = memory_question::answer_question(book, memory, 1, 3, &q, &mut answer);
    let a = Answered::from(given);
    println!(rt; "inner {} {} {}", a.refusal, a.anew, a.filled)?;
    put_line(rt, "answer", &answer)
}

fn main(rt: HostRuntime) -> io::Result<()> {
    let book =
        b"\x02\0\x07\0\0\0\x12\0\x01\0QRST\x1a\0\x02\0\0\0\0\0\0\0\0\0\x05\0\x01\0\x01\0\0\0\x01\x05\0\0\x05\0\0\0";
    let day =
        b"\x02\0\x12\0\0\0\x09\0\0\0\x1b\0\0\0\x09\0\0\0\x01\x01\0\x02\x017\x03\x01\0\x01\x01\0\x02\x015\x03\x01\0";
    let mut memory = [0u64; memory_slots::SLOT];
    check_both(&rt, book, day)?;
    find_bodies(&rt, book)?;
    run_it(&rt, book, day, &mut memory)?;
    pass_it(&rt, book, day, &mut memory)?;
    ask_it(&rt, book, &mut memory)
}
