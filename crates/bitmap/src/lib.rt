// Sets of replicas as masks of 64 bits: bit s is the replica s. A word of a row of shards is such a mask too.
#![tactic(auto)]

ghost use Rattle.std.specs.Prelude.{◌≡◌, ◌+◌, ◌<◌, ◌≤◌, length, get_or, take};
ghost use Rattle.std.specs.Int.Bits.{bit_or};
ghost use Rattle.bitmap.specs.Mask.{has_bit, with_bit, is_below, count, run, run_modulo};

// The number of a replica. It is wide, so that a number out of range is refused and not cut.
#[derive(Clone, Copy, Debug, PartialEq, Eq)]
pub struct ReplicaId(pub usize);

// Whether the replica s is in the mask.
pub fn has_replica(mask: u64, s: ReplicaId) -> bool
    ensures { result ≡ has_bit mask s.0 }
{
    bit_at(mask, s.0)
}

// The mask with the replica s. A part: a word has room for members below 64.
pub fn with_replica(mask: u64, s: ReplicaId) -> u64
    requires { s.0 < 64 }
    ensures { result ≡ with_bit mask s.0 }
{
    with_bit(mask, s.0)
}

// The members of either mask.
pub fn union(a: u64, b: u64) -> u64
    ensures { result ≡ bit_or a b }
{
    a | b
}

// How many members m has.
pub fn count(m: u64) -> usize
    ensures { result ≡ count m }
{
    u64::count_ones(m) as usize
}

// Whether every member of m is below w. Of a word every member is below 64, and a shift by 64 has no meaning.
pub fn is_below(m: u64, w: usize) -> bool
    ensures { result ≡ is_below w m }
{
    if 64 <= w {
        return true;
    }
    (m >> w) == 0
}

// The k members from a on. A part: they are all below 64.
pub fn run(a: usize, k: usize) -> u64
    requires { a + k ≤ 64 }
    ensures { result ≡ run a k }
{
    if k == 0 {
        return 0;
    }
    (0xffff_ffff_ffff_ffff >> (64 - k)) << a
}

// The k members from a on, each modulo w. A part: k is at most w, and w from 1 to 64.
pub fn run_modulo(a: usize, k: usize, w: usize) -> u64
    requires { (0 < w) × (w ≤ 64) × (k ≤ w) }
    ensures { result ≡ run_modulo w a k }
{
    let from = a % w;
    if from + k <= w {
        return run(from, k);
    }
    run(from, w - from) | run(0, from + k - w)
}

// The word at i; what the table lacks is 0.
pub fn word_at(words: &[u64], i: usize) -> u64
    ensures { result ≡ get_or words.now i 0 }
{
    words.get(i).copied().unwrap_or(0)
}

// The first words of a table, copied. A part: it has as many.
pub fn copy(from: &[u64], to: &mut [u64])
    requires { length to.old ≤ length from.now }
    ensures { to.new ≡ take (length to.old) from.now }
{
    to.copy_from_slice(&from[..to.len()]);
}

// Whether s is a member of m, whatever its members number.
pub fn bit_at(m: u64, s: usize) -> bool
    ensures { result ≡ has_bit m s }
{
    if 64 <= s {
        return false;
    }
    (m >> s) % 2 == 1
}

// m with the member s, whatever its members number. A part, as with_replica.
pub fn with_bit(m: u64, s: usize) -> u64
    requires { s < 64 }
    ensures { result ≡ with_bit m s }
{
    m | (1u64 << s)
}
