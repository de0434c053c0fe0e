// A family of sets of n replicas as a table of 2^n bits: the set with the mask m is bit m % 64 of the word m / 64.
#![tactic(auto)]

ghost use Rattle.std.specs.Prelude.{◌≡◌, ◌*◌, ◌^◌, ◌<◌, ◌≤◌, length, replicate};
ghost use Rattle.lists.specs.Below.{those_below, front};
ghost use Rattle.marks.specs.Marks.{flagged, with_flag};

// The table, in an array of words that may be longer: a bit past the 2^n is in it, and is no set of the n replicas.
#[derive(Drop)]
pub struct Marks<const WORDS: usize> {
    pub words: [u64; WORDS],
    pub replicas: usize,
    ghost few: { replicas ≤ 16 },
    ghost room: { 2 ^ replicas ≤ 64 * length words },
}

impl<const WORDS: usize> Marks<WORDS> {
    // The table that flags no set.
    pub fn new(replicas: usize) -> Self
        requires few { replicas ≤ 16 }
        requires room { 2 ^ replicas ≤ 64 * WORDS }
        ensures words { result.words ≡ replicate WORDS 0 }
        ensures replicas { result.replicas ≡ replicas }
    {
        Marks {
            words: [0; WORDS],
            replicas,
        }
    }

    // How many sets of the replicas there are.
    #[inline]
    pub fn sets(&self) -> usize
        ensures number { result ≡ 2 ^ self.now.replicas }
        ensures small { result ≤ 65536 }
    {
        sets(self.replicas)
    }

    // How many of the words hold the bits of these sets.
    #[inline]
    pub fn used(&self) -> usize
        ensures enough { 2 ^ self.now.replicas ≤ 64 * result }
        ensures within { result ≤ WORDS }
    {
        (self.sets() + 63) / 64
    }

    // Whether the set m is flagged. A part: the table has a bit for it.
    #[inline]
    pub fn has(&self, m: usize) -> bool
        requires { m < 64 * length self.now.words }
        ensures { result ≡ flagged self.now.words m }
    {
        has(&self.words, m)
    }

    // Flags the set m. A part, as has.
    #[inline]
    pub fn put(&mut self, m: usize)
        requires { m < 64 * length self.old.words }
        ensures words { self.new.words ≡ with_flag self.old.words m }
        ensures replicas { self.new.replicas ≡ self.old.replicas }
    {
        put(&mut self.words, m);
    }

    // How many sets of the replicas are flagged.
    #[inline]
    pub fn count(&self) -> usize
        ensures { result ≡ length (those_below (flagged self.now.words) (2 ^ self.now.replicas)) }
    {
        count(&self.words, self.replicas)
    }

    // Writes the masks of the flagged sets, rising, to the front of `list`, which has room for them.
    #[inline]
    pub fn write(&self, list: &mut [u64])
        requires { length (those_below (flagged self.now.words) (2 ^ self.now.replicas)) ≤ length list.old }
        ensures { list.new ≡ front (those_below (flagged self.now.words) (2 ^ self.now.replicas)) list.old }
    {
        write(&self.words, self.replicas, list);
    }
}

// How many sets of n replicas there are.
#[inline]
fn sets(n: usize) -> usize
    requires { n ≤ 16 }
    ensures number { result ≡ 2 ^ n }
    ensures small { result ≤ 65536 }
{
    1 << n
}

// Whether a table flags the set m. A part: the table has a bit for it.
#[inline]
#[tactic(auto, unfolding(crate::specs::Marks::flagged))]
pub fn has(table: &[u64], m: usize) -> bool
    requires { m < 64 * length table.now }
    ensures { result ≡ flagged table.now m }
{
    (table[m / 64] >> (m % 64)) % 2 == 1
}

// Flags the set m in the words of a table. A part, as has.
#[inline]
#[tactic(auto, unfolding(crate::specs::Marks::with_flag))]
pub fn put(words: &mut [u64], m: usize)
    requires { m < 64 * length words.old }
    ensures { words.new ≡ with_flag words.old m }
{
    let k = m / 64;
    let w = bitmap::with_bit(words[k], m % 64);
    words[k] = w;
}

// How many sets of n replicas a table flags. A part: the table has a bit for each.
// Kept as it is: here and in write, a struct of a slice is no plainer than the clauses; Marks is that struct of an array.
pub fn count(table: &[u64], n: usize) -> usize
    requires few { n ≤ 16 }
    requires room { 2 ^ n ≤ 64 * length table.now }
    ensures { result ≡ length (those_below (flagged table.now) (2 ^ n)) }
{
    (0..sets(n)).map(|m| usize::from(has(table, m))).sum()
}

// Writes the masks of the flagged sets, rising, to the front of `list`, which has room for them. A part, as count.
pub fn write(table: &[u64], n: usize, list: &mut [u64])
    requires few { n ≤ 16 }
    requires bits { 2 ^ n ≤ 64 * length table.now }
    requires room { length (those_below (flagged table.now) (2 ^ n)) ≤ length list.old }
    ensures { list.new ≡ front (those_below (flagged table.now) (2 ^ n)) list.old }
{
    for (i, m) in (0..sets(n)).filter(|m| has(table, *m)).enumerate() {
        list[i] = m as u64;
    }
}
