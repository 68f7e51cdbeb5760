// Section "What has to be nailed to the definitions": "a wrong answer put into a slot must come back, and must reach
// the parent's set". This program puts one in, asks the inner call, makes the pass from it, and prints what both
// give; file stdout holds what the paper wants, worked out by hand as follows.
//
// The book has one filter, /1/3: STEP 1 to 1, STEP 3 to 2, TRUE. Slot 1 asks what an empty element 2 asks, the empty
// set under label 2. No STEP has that label, so the right answer is the empty set; the slot says all 512 bits. Slot 2
// is free and holds zeros. 5 questions were worked out anew before.
// The inner call asked that question gives eight full numbers (`answer`); refusal 0, anew 5 and filled 1 (`inner`),
// and the memory (`slot`) stay.
// The day's message is an element 1 that holds an empty element 2. Element 2's end asks slot 1's question, so all 512
// bits are joined to the set of element 1. Its end asks the eight full numbers under label 1: no slot has that. Of
// the STEPs label 1 fits the one at state 0, whose successor 1 is in the set asked: the answer is bit 0. So slot 2
// holds eight full numbers, 1, and 1 0 0 0 0 0 0 0. `pass`: refusal 0, asked 2, anew 6, filled 2.
// State 0 is at the root, so the filter is true: `row` is 0 0 1. Worked out by the match rule it would be 0 0 0, and
// slot 2 would ask the empty set.
#![tactic(auto)]

ghost use Rattle.std.specs.Prelude.{◌*◌, ◌≤◌, length};
ghost use Rattle.rules.specs.Memory.{slot_width};

use day_run::Total;
use memory_question::Answered;
use std::io;

const FULL: u64 = 18446744073709551615;

// A line: a word and some numbers. Programs share no crate, so each has its own.
fn put_line(rt: &impl Print, word: &str, numbers: &[u64]) -> io::Result<()> {
    print!(rt; "{word}")?;
    for x in numbers {
        print!(rt; " {x}")?;
    }
    println!(rt)
}

// A line for each slot.
fn put_slots(rt: &impl Print, memory: &[u64]) -> io::Result<()> {
    for slot in memory.chunks_exact(memory_slots::SLOT) {
        put_line(rt, "slot", slot)?;
    }
    Ok(())
}

// The wrong answer in slot 1.
fn fill_it(memory: &mut [u64])
    requires { 2 * slot_width ≤ length memory.old }
{
    let mut q = [0u64; memory_slots::QUESTION];
    q[memory_slots::LABEL] = 2;
    let answer = [FULL; memory_slots::ANSWER];
    memory_slots::keep(memory, 0, &q, &answer);
}

// The inner call, asked what slot 1 asks.
fn ask_it(rt: &impl Print, book: &[u8], memory: &mut [u64]) -> io::Result<()> {
    let mut q = [0u64; memory_slots::QUESTION];
    q[memory_slots::LABEL] = 2;
    let mut answer = [0u64; set_bits::WIDTH];
    let given = memory_question::answer_question(book, memory, 1, 5, &q, &mut answer);
    let a = Answered::from(given);
    println!(rt; "inner {} {} {}", a.refusal, a.anew, a.filled)?;
    put_line(rt, "answer", &answer)
}

// The pass from the one filled slot.
fn pass_it(rt: &impl Print, book: &[u8], memory: &mut [u64]) -> io::Result<()> {
    let day =
        b"\x01\x00\x0a\x00\x00\x00\x0c\x00\x00\x00\x01\x01\x00\x01\x02\x00\x03\x02\x00\x03\x01\x00";
    let mut answers = [9u64; day_row::ROW];
    let mut workspace = [5u64; message_levels::WORKSPACE];
    let given = day_run::pass_from(book, day, memory, &mut answers, &mut workspace, 0, 5, 1);
    let t = Total::from(given);
    println!(rt; "pass {} {} {} {}", t.refusal, t.asked, t.anew, t.filled)?;
    put_line(rt, "row", &answers)
}

fn main(rt: HostRuntime) -> io::Result<()> {
    let book =
        b"\x01\0\x0a\0\0\0\x0a\0\x03\0\x05\0\x01\0\x01\0\0\0\x05\0\x03\0\x02\0\0\0\0\0\0\0\0\0\0\0";
    let mut memory = [0u64; 2 * memory_slots::SLOT];
    fill_it(&mut memory);
    ask_it(&rt, book, &mut memory)?;
    put_slots(&rt, &memory)?;
    pass_it(&rt, book, &mut memory)?;
    put_slots(&rt, &memory)
}
