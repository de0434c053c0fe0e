// The maximal members of a family of sets of n replicas, which a table of 2^n bits holds, a bit a mask. It is worked on in place and by
// words, in one pass for each replica and one more.
#![tactic(auto)]

ghost use Rattle.std.specs.Prelude.{◌≡◌, ◌/◌, ◌^◌, ◌<◌, ◌≤◌, length};
ghost use Rattle.std.specs.Int.Bits.{bit_and};
ghost use Rattle.bitmap.specs.Mask.{mask_below};
ghost use Rattle.marks.specs.Marks.{flagged};
ghost use Rattle.maximal.specs.Maximal.{is_maximal};
ghost use Rattle.maximal.specs.Tables.{Flags, is_lacking, Shows, Spread, Tops, Peeled};

use marks::Marks;

// The numbers below 64 that lack the bit b, at the place b.
const LACKING: [u64; 6] = [
    0x5555_5555_5555_5555,
    0x3333_3333_3333_3333,
    0x0f0f_0f0f_0f0f_0f0f,
    0x00ff_00ff_00ff_00ff,
    0x0000_ffff_0000_ffff,
    0x0000_0000_ffff_ffff,
];

// Leaves flagged the maximal members alone of the family that the table flags. First each part of a member is flagged too: after the pass
// over the replica b those parts are that lack replicas up to b alone.
// Kept as it is: a type of the numbers up to 16 is no plainer: each call would make one, and each use take the number out again.
pub fn keep(table: &mut [u64], n: usize)
    requires { n ≤ 16 }
    ensures { Flags n (is_maximal (flagged table.old) n) table.new }
{
    for b in 0..n {
        spread(table, b);
    }
    peel(table, n);
}

// The same, in the words that hold the sets of the replicas.
pub fn keep_marks<const WORDS: usize>(marks: &mut Marks<WORDS>)
    ensures flags { Flags marks.old.replicas (is_maximal (flagged marks.old.words) marks.old.replicas) marks.new.words }
    ensures replicas { marks.new.replicas ≡ marks.old.replicas }
{
    let n = marks.replicas;
    let used = marks.used();
    keep(&mut marks.words[..used], n);
}

// Flags each set too that lacks the replica b, and with it is flagged. It goes upward, so that a word further up is read before it is
// written.
fn spread(table: &mut [u64], b: usize)
    requires { b < 16 }
    ensures { Spread b table.old table.new }
{
    for k in 0..table.len() {
        let w = shown(table, b, k);
        table[k] |= w;
    }
}

// Leaves a set flagged if with no replica that it lacks it is flagged. It goes upward, as spread.
fn peel(table: &mut [u64], n: usize)
    requires { n ≤ 16 }
    ensures { Peeled n table.old table.new }
{
    for k in 0..table.len() {
        let w = tops(table, n, k);
        table[k] = w;
    }
}

// Those of the 64 sets of the word k that are flagged, and are so with no replica that they lack.
fn tops(table: &[u64], n: usize, k: usize) -> u64
    requires few { n ≤ 16 }
    requires inside { k < length table.now }
    ensures { Tops n table.now k result }
{
    let mut covered = 0u64;
    for b in 0..n {
        covered |= shown(table, b, k);
    }
    table[k] ^ (table[k] & covered)
}

// Those of the 64 sets of the word k that lack the replica b, and with it are flagged. The set with a replica below 6 is in the same word;
// that with another is at the same place in a word further up.
fn shown(table: &[u64], b: usize, k: usize) -> u64
    requires few { b < 16 }
    requires inside { k < length table.now }
    ensures { Shows b table.now k result }
{
    if b < 6 {
        return near(table[k], b);
    }
    let far = 1usize << (b - 6);
    if (k >> (b - 6)) % 2 == 1 {
        return 0;
    }
    if table.len() - k <= far {
        return 0;
    }
    table[k + far]
}

// The places below 64 that lack the bit b, and with it are in w.
fn near(w: u64, b: usize) -> u64
    requires { b < 6 }
    ensures { result ≡ bit_and (w / 2 ^ (2 ^ b)) (mask_below (is_lacking b) 64) }
{
    (w >> (1usize << b)) & LACKING[b]
}
