// The index over the filled slots, 12,288 numbers: 8,192 heads by a hash of the question, and then for each slot the
// one before it in its chain. Both count slots from 1; 0 is the end. It holds slot numbers alone, and is a function
// of the memory: specs/Index.antt.
// Its `pub` is for sister crates only: a caller shows that the index is that of the filled slots. Read next:
// memory_ask.
#![tactic(auto)]

ghost use Rattle.std.specs.Prelude.{◌≡◌, ℕ, ◌+◌, ◌≤◌, ◌<◌, List, ◌++◌, length};
ghost use Rattle.std.proofs.Math.Option.{none};
ghost use Rattle.lists.specs.Same.{same_list};
ghost use Rattle.rules.specs.Sets.{set_width};
ghost use Rattle.rules.specs.Memory.{most_slots, question_in, slots_lent, first_slot};
ghost use Rattle.memory_slots.specs.Slots.{with_slot};
ghost use Rattle.memory_hash.specs.Hash.{heads, Hashed};
ghost use Rattle.memory_index.specs.Index.{meant, Indexed, entered};

use memory_hash::HEADS;
use memory_slots::SLOTS;
use std::marker::Model;

// For each hash the last of its slots, and for each slot the one before it in its chain.
#[derive(Drop)]
pub struct SlotIndex {
    heads: [u16; HEADS],
    before: [u16; SLOTS],
}

impl Model for SlotIndex {
    ghost Value = { List ℕ };

    ghost view = { λ x. x.heads ++ x.before };
}

// Whether a slot asks a question: its numbers are the question's.
#[tactic(auto, using(lists::proofs::Same::Comparing::comparing_laws))]
fn same(asked: &[u64], q: &[u64]) -> bool
    requires { length asked.now ≡ length q.now }
    ensures { result ≡ same_list asked.now q.now }
{
    // A for, up to the first number that differs: == of slices takes nearly twice as long on a chain.
    for i in 0..asked.len() {
        if asked[i] != q[i] {
            return false;
        }
    }
    true
}

// An index of no slots.
pub const EMPTY: SlotIndex = SlotIndex {
    heads: [0; HEADS],
    before: [0; SLOTS],
};

impl SlotIndex {
    // The first of the filled slots that asks the question, by the chain of its hash. The memory is lent at any length,
    // so what is filled stands beside it, as the hash beside its question, which is worked out once.
    pub fn find(&self, memory: &[u64], filled: usize, q: &[u64], h: usize) -> Option<usize>
        requires indexed { Indexed self.now memory.now filled }
        requires hashed { Hashed q.now h }
        ensures { meant result ≡ first_slot memory.now filled (question_in q.now) }
    {
        let mut p = usize::from(self.heads[h]);
        // A chain of links, no count: a while.
        while 0 < p {
            let i = p - 1;
            if same(memory_slots::question(memory, i), q) {
                return Some(i);
            }
            p = usize::from(self.before[i]);
        }
        None
    }

    // Slot n becomes the head of the chain at h.
    fn enter(&mut self, n: usize, h: usize)
        requires { (n < most_slots) × (h < heads) }
        ensures { self.new ≡ entered self.old n h }
    {
        self.before[n] = self.heads[h];
        // At most 4,096: as, since try_from has an error that can't be.
        self.heads[h] = (n + 1) as u16;
    }

    // One filled slot more is indexed.
    fn add(&mut self, memory: &[u64], n: usize)
        requires { Indexed self.old memory.now n × (n < slots_lent memory.now) }
        ensures { Indexed self.new memory.now (n + 1) }
    {
        let q = memory_slots::question(memory, n);
        let h = memory_hash::hash(q);
        if self.find(memory, n, q, h).is_none() {
            self.enter(n, h);
        }
    }

    // The index of any filled slots.
    pub fn index_all(&mut self, memory: &[u64], filled: usize)
        requires { filled ≤ slots_lent memory.now }
        ensures { Indexed self.new memory.now filled }
    {
        self.heads.fill(0);
        self.before.fill(0);
        for i in 0..filled {
            self.add(memory, i);
        }
    }

    // A slot more, for a question that no filled slot asks.
    pub fn keep(&mut self, memory: &mut [u64], n: usize, q: &[u64], h: usize, answer: &[u64])
        requires indexed { Indexed self.old memory.old n × (n < slots_lent memory.old) }
        requires hashed { Hashed q.now h × (length answer.now ≡ set_width) }
        requires unasked { first_slot memory.old n (question_in q.now) ≡ none }
        ensures kept { memory.new ≡ with_slot memory.old n q.now answer.now }
        ensures still_indexed { Indexed self.new memory.new (n + 1) }
    {
        memory_slots::keep(memory, n, q, answer);
        self.enter(n, h);
    }
}
