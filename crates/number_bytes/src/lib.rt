// Little-endian numbers in bytes, and where an entry of a file's contents stands, for books and day files alike: each
// one equation to rules/specs/Bytes.antt. Its `pub` is for sister crates only: they know the lengths that `requires`
// asks.
// Read next: book_check and day_check.
#![tactic(auto)]

ghost use Rattle.std.specs.Prelude.{◌≡◌, ◌+◌, ◌*◌, ◌^◌, ◌<◌, ◌≤◌, length, get_or};
ghost use Rattle.rules.specs.Bytes.{le2, le4, entry_at, signed4};

// The bytes of the count at a file's start.
const COUNT: usize = 2;

// The bytes of an entry.
const ENTRY: usize = 8;

pub fn byte(s: &[u8], i: usize) -> u64
    requires { i < length s.now }
    ensures { (result ≡ get_or s.now i 0) × (result < 256) }
{
    u64::from(s[i])
}

pub fn read2(s: &[u8], i: usize) -> u64
    requires { i + 2 ≤ length s.now }
    ensures { (result ≡ le2 s.now i) × (result < 65536) }
{
    u64::from(u16::from_le_bytes([s[i], s[i + 1]]))
}

pub fn read4(s: &[u8], i: usize) -> u64
    requires { i + 4 ≤ length s.now }
    ensures { (result ≡ le4 s.now i) × (result < 2 ^ 32) }
{
    u64::from(u32::from_le_bytes([s[i], s[i + 1], s[i + 2], s[i + 3]]))
}

// Where entry k stands; after the last entry, where the contents end.
pub fn entry_at(k: usize) -> usize
    requires { entry_at k < 2 ^ 64 }
    ensures { result ≡ entry_at k }
{
    COUNT + ENTRY * k
}

// 32 bits read as a signed number.
#[tactic(auto, using(crate::proofs::Sign::cast_is))]
pub fn signed(u: u64) -> i32
    requires { u < 2 ^ 32 }
    ensures { result ≡ signed4 u }
{
    // A u64 has no From into u32: as.
    (u as u32).cast_signed()
}
