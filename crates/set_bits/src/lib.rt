// Sets of states: eight 64-bit numbers, each function one equation to rules/specs/Sets.antt. Its `pub` is for sister
// crates only.
// A set is a slice and no array: it is a part of what is lent, and may be longer.
// State k is bit k mod 64 of number k div 64. Read next: set_complete, which completes a set by a plan.
#![tactic(auto)]

ghost use Rattle.std.specs.Prelude.{◌≡◌, ◌<◌, ◌≤◌, length};
ghost use Rattle.rules.specs.Book.{most_states};
ghost use Rattle.rules.specs.Sets.{set_width, has as member, either};
ghost use Rattle.rules.specs.OneBit.{put as with_bit};

// A set's numbers.
pub const WIDTH: usize = 8;

// The states that each of them has a bit for.
const BITS: usize = 64;

pub fn has(set: &[u64], k: usize) -> bool
    requires { (set_width ≤ length set.now) × (k < most_states) }
    ensures { result ≡ member set.now k }
{
    (set[k / BITS] >> (k % BITS)) % 2 == 1
}

// A bit is taken out by first putting it in: no branch on what it was.
#[tactic(auto, using(rules::proofs::Sets::Laws::put_on, rules::proofs::Sets::Laws::put_off))]
pub fn put(set: &mut [u64], k: usize, b: bool)
    requires { (set_width ≤ length set.old) × (k < most_states) }
    ensures { set.new ≡ with_bit set.old k b }
{
    let w = set[k / BITS];
    let m = 1 << (k % BITS);
    if b {
        set[k / BITS] = w | m;
    } else {
        set[k / BITS] = (w | m) ^ m;
    }
}

// Joins another set to a set.
#[tactic(auto, using(crate::specs::Join::join_laws))]
pub fn join(set: &mut [u64], other: &[u64])
    requires { (length set.old ≡ set_width) × (length other.now ≡ set_width) }
    ensures { set.new ≡ either set.old other.now }
{
    // By number: each of the eight has its law.
    for (i, number) in set.iter_mut().enumerate() {
        *number |= other[i];
    }
}
