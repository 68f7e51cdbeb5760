// A hash of the numbers of a question: its place among the heads of the index. Its `pub` is for sister crates only: a
// caller shows the length.
// Callers use one fact of it, that it is below the count of heads. Read next: memory_index.
#![tactic(auto)]

ghost use Rattle.std.specs.Prelude.{◌≡◌, ◌<◌, length};
ghost use Rattle.rules.specs.Memory.{question_width};
ghost use Rattle.memory_hash.specs.Hash.{lane_of, hash_of, heads};

// The heads of the index: twice the most slots.
pub const HEADS: usize = 8192;

// 2^32.
const HALF: u64 = 4294967296;

// What each of a question's nine numbers is moved on by, its lower half and its upper.
const MOVES: [(u32, u32); 9] = [
    (2654435769, 1640531527),
    (2246822519, 3266489917),
    (668265263, 374761393),
    (3432918353, 461845907),
    (2654435761, 3864292196),
    (2127912214, 3345072700),
    (3042594569, 4251993797),
    (1181783497, 2860486313),
    (1540483477, 2971215073),
];

// A number's two halves, each moved on by a number, multiplied.
#[tactic(auto, using(crate::specs::Hash::lane_fits), unfolding(crate::specs::Hash::lane_of))]
fn lane(w: u64, a: u32, b: u32) -> u64
    ensures { result ≡ lane_of w a b }
{
    (w % HALF + u64::from(a)) % HALF * ((w / HALF + u64::from(b)) % HALF)
}

// The nine products joined, and of that the upper half.
#[tactic(auto, using(crate::specs::Hash::joining_laws))]
pub fn hash(q: &[u64]) -> usize
    requires { length q.now ≡ question_width }
    ensures { (result ≡ hash_of q.now) × (result < heads) }
{
    let mut joined = 0;
    // Along the pairs, whose count is a constant: a zip with q is not unrolled.
    for (i, (a, b)) in MOVES.iter().enumerate() {
        joined ^= lane(q[i], *a, *b);
    }
    // A u64 has no From into usize: as.
    (joined >> 32) as usize % HEADS
}
