// Rows of shards as four words of 64 bits, the lowest shards first, and lent tables of them, four words a row.
#![tactic(auto)]

ghost use Rattle.std.specs.Prelude.{◌≡◌, ℕ, List, ◌+◌, ◌-◌, ◌*◌, ◌/◌, ◌^◌, ◌<◌, ◌≤◌, min, length, get_or, eqb, cond};
ghost use Rattle.std.specs.List.{list_all};
ghost use Rattle.std.specs.Int.Bits.{bit_or};
ghost use Rattle.lists.specs.Below.{each_below, front};
ghost use Rattle.bitmap.specs.Mask.{has_bit, with_bit, is_below, count, run, run_modulo};
ghost use Rattle.rows.specs.Row.{words, row_of, row_in, low_in, last_in, rows_in, unite_below, with_row, spelled, span};

// The number of a shard.
#[derive(Clone, Copy, Debug, PartialEq, Eq)]
pub struct ShardId(pub usize);

// The shards that a replica holds, or those that a reply names: shard s is bit s % 64 of the word s / 64. The C interface passes it by
// value.
#[repr(C)]
#[derive(Clone, Copy, Debug, PartialEq, Eq)]
pub struct Row {
    pub w0: u64,
    pub w1: u64,
    pub w2: u64,
    pub w3: u64,
}

// A set of shards as machine words: a row, or its first word alone where every shard is below 64. What is written once over it runs on one
// word where one is enough.
pub trait ShardSet: Copy {
    // The set as a number, whose bits are the members.
    ghost members: { Self → ℕ };

    // How many shards there is room for.
    ghost room: { ℕ };

    // What is read of the row of a replica in a table of four words a row.
    ghost read: { List ℕ → ℕ → ℕ };

    // The set of no shard.
    fn none() -> Self
        ensures { members result ≡ 0 };

    // The shards of either set.
    fn union(self, other: Self) -> Self
        ensures { members result ≡ bit_or (members self) (members other) };

    // How many shards the set has.
    fn count(self) -> usize
        ensures { result ≡ count (members self) };

    // The set if the flag is 1, and no shard if it is 0. No branch on it.
    fn taken(self, flag: u64) -> Self
        requires { flag < 2 }
        ensures { members result ≡ cond (eqb flag 1) (members self) 0 };

    // The set of the replica s in a table. A part: the table has its row.
    fn read_row(rows: &[u64], s: usize) -> Self
        requires { s * 4 + 4 ≤ length rows.now }
        ensures { members result ≡ read rows.now s };

    // The k shards from that one on. A part: there is room for them.
    fn run(from: ShardId, k: usize) -> Self
        requires { from.0 + k ≤ room }
        ensures { members result ≡ run from.0 k };

    // The k shards from that one on, each modulo w. A part: k is at most w, for which there is room.
    fn run_modulo(from: ShardId, k: usize, w: usize) -> Self
        requires positive { 0 < w }
        requires room { w ≤ room }
        requires turn { k ≤ w }
        ensures { members result ≡ run_modulo w from.0 k };

    // The same shards as a row.
    fn row(self) -> Row
        ensures { row_of result ≡ members self };
}

impl ShardSet for u64 {
    ghost members = { λ m. m };

    ghost room = { 64 };

    ghost read = { low_in };

    #[inline]
    fn none() -> u64 {
        0
    }

    #[inline]
    fn union(self, other: u64) -> u64 {
        self | other
    }

    #[inline]
    fn count(self) -> usize {
        bitmap::count(self)
    }

    #[inline]
    fn taken(self, flag: u64) -> u64 {
        self & spread(flag)
    }

    #[inline]
    fn read_row(rows: &[u64], s: usize) -> u64 {
        rows[s * 4]
    }

    #[inline]
    fn run(from: ShardId, k: usize) -> u64 {
        bitmap::run(from.0, k)
    }

    #[inline]
    fn run_modulo(from: ShardId, k: usize, w: usize) -> u64 {
        bitmap::run_modulo(from.0, k, w)
    }

    #[inline]
    fn row(self) -> Row {
        Row {
            w0: self,
            w1: 0,
            w2: 0,
            w3: 0,
        }
    }
}

impl ShardSet for Row {
    ghost members = { row_of };

    ghost room = { 256 };

    ghost read = { row_in };

    #[inline]
    fn none() -> Row {
        Row {
            w0: 0,
            w1: 0,
            w2: 0,
            w3: 0,
        }
    }

    #[inline]
    fn union(self, other: Row) -> Row {
        Row {
            w0: self.w0 | other.w0,
            w1: self.w1 | other.w1,
            w2: self.w2 | other.w2,
            w3: self.w3 | other.w3,
        }
    }

    #[inline]
    fn count(self) -> usize {
        let low = bitmap::count(self.w0) + bitmap::count(self.w1);
        low + bitmap::count(self.w2) + bitmap::count(self.w3)
    }

    #[inline]
    fn taken(self, flag: u64) -> Row {
        let all = spread(flag);
        Row {
            w0: self.w0 & all,
            w1: self.w1 & all,
            w2: self.w2 & all,
            w3: self.w3 & all,
        }
    }

    #[inline]
    fn read_row(rows: &[u64], s: usize) -> Row {
        let at = s * 4;
        Row {
            w0: rows[at],
            w1: rows[at + 1],
            w2: rows[at + 2],
            w3: rows[at + 3],
        }
    }

    // Most often the first word has them all.
    #[inline]
    fn run(from: ShardId, k: usize) -> Row {
        if from.0 + k <= 64 {
            return u64::run(from, k).row();
        }
        run_across(from.0, k)
    }

    // Up to a width of 64 the first word has them all.
    #[inline(always)]
    fn run_modulo(from: ShardId, k: usize, w: usize) -> Row {
        if w <= 64 {
            return u64::run_modulo(from, k, w).row();
        }
        run_modulo_across(from.0, k, w)
    }

    #[inline]
    fn row(self) -> Row {
        self
    }
}

// A word whose every bit is the flag, as a sign is spread over a number. A product, or a test, is compiled to a branch on the flag.
#[inline]
fn spread(flag: u64) -> u64
    requires { flag < 2 }
    ensures { result ≡ flag * 18446744073709551615 }
{
    ((flag << 63).cast_signed() >> 63).cast_unsigned()
}

impl Row {
    // Whether the shard s is in the row.
    pub fn has(self, s: ShardId) -> bool
        ensures { result ≡ has_bit (row_of self) s.0 }
    {
        let k = s.0;
        bitmap::bit_at(self.word(k / 64), k % 64)
    }

    // The row with the shard s. A part: a row has room for shards below 256.
    pub fn with(self, s: ShardId) -> Row
        requires { s.0 < 256 }
        ensures { row_of result ≡ with_bit (row_of self) s.0 }
    {
        self.union(Row::run(s, 1))
    }

    // Whether every shard of the row is below w.
    pub fn is_below(self, w: usize) -> bool
        ensures { result ≡ is_below w (row_of self) }
    {
        if !bitmap::is_below(self.w0, w) {
            return false;
        }
        let w1 = past(w);
        if !bitmap::is_below(self.w1, w1) {
            return false;
        }
        let w2 = past(w1);
        if !bitmap::is_below(self.w2, w2) {
            return false;
        }
        bitmap::is_below(self.w3, past(w2))
    }

    // Writes the row of the replica s into a table. A part: the table has it.
    // Kept as it is: a struct of table and replica is no plainer than the clause, since each use would make one for one call.
    pub fn put(self, rows: &mut [u64], s: usize)
        requires { s * 4 + 4 ≤ length rows.old }
        ensures { rows.new ≡ with_row rows.old s (row_of self) }
    {
        let at = s * 4;
        rows[at] = self.w0;
        rows[at + 1] = self.w1;
        rows[at + 2] = self.w2;
        rows[at + 3] = self.w3;
    }

    // Makes each of the first n rows of the table the same. A part: the table has them.
    pub fn fill(self, n: usize, rows: &mut [u64])
        requires { n * 4 ≤ length rows.old }
        ensures { rows.new ≡ front (spelled (each_below (λ _. row_of self) n)) rows.old }
    {
        for s in 0..n {
            self.put(rows, s);
        }
    }

    // The word j; there is none past the last.
    fn word(self, j: usize) -> u64
        ensures { result ≡ get_or (words self) j 0 }
    {
        match j {
            0 => self.w0,
            1 => self.w1,
            2 => self.w2,
            3 => self.w3,
            _ => 0,
        }
    }
}

// The k shards from a on. A part: a row has room for them.
fn run_across(a: usize, k: usize) -> Row
    requires { a + k ≤ 256 }
    ensures { row_of result ≡ run a k }
{
    let e = a + k;
    let a1 = past(a);
    let e1 = past(e);
    let a2 = past(a1);
    let e2 = past(e1);
    let w0 = span(a, e);
    let w1 = span(a1, e1);
    let w2 = span(a2, e2);
    let w3 = span(past(a2), past(e2));
    Row { w0, w1, w2, w3 }
}

// The k shards from `from` on, each modulo w. A part: k is at most w, for which a row has room.
// Kept as it is: bitmap lies below the trait and has the same of a word; one over the trait would serve the row alone.
fn run_modulo_across(from: usize, k: usize, w: usize) -> Row
    requires { (0 < w) × (w ≤ 256) × (k ≤ w) }
    ensures { row_of result ≡ run_modulo w from k }
{
    let a = from % w;
    if a + k <= w {
        return Row::run(ShardId(a), k);
    }
    Row::run(ShardId(a), w - a).union(Row::run(ShardId(0), a + k - w))
}

// The row of the replica s, of which the table may have a part or nothing: a word that it does not have counts as 0. A part: s is no larger
// than the table.
fn part_in(rows: &[u64], s: usize) -> Row
    requires { s * 4 ≤ length rows.now }
    ensures { row_of result ≡ row_in rows.now s }
{
    let at = s * 4;
    let w0 = bitmap::word_at(rows, at);
    let w1 = bitmap::word_at(rows, at + 1);
    let w2 = bitmap::word_at(rows, at + 2);
    let w3 = bitmap::word_at(rows, at + 3);
    Row { w0, w1, w2, w3 }
}

// Whether every shard of every row of the table is below w: all rows are united, and that union is tested once. From a width of 192 on only
// the last word of a row can have a shard that is not.
pub fn are_below(rows: &[u64], w: usize) -> bool
    ensures { result ≡ list_all (is_below w) (rows_in rows.now) }
{
    if 192 <= w {
        return bitmap::is_below(last_of(rows), w - 192);
    }
    all_of(rows).is_below(w)
}

// The last words of all rows, united. A row that is not whole has none.
fn last_of(rows: &[u64]) -> u64
    ensures { result ≡ unite_below (last_in rows.now) (length rows.now / 4) }
{
    let n = rows.len() / 4;
    let mut acc = last_of_fours(rows);
    for s in rows.len() / 16 * 4..n {
        acc |= rows[s * 4 + 3];
    }
    acc
}

// The same of the rows that make whole groups of four. The rows of a group go into four separate unions, none of which waits for another;
// these are united once, after the loop.
fn last_of_fours(rows: &[u64]) -> u64
    ensures { result ≡ unite_below (last_in rows.now) (length rows.now / 16 * 4) }
{
    let n = rows.len() / 16;
    let mut a = 0;
    let mut b = 0;
    let mut c = 0;
    let mut d = 0;
    for g in 0..n {
        let at = g * 16;
        a |= rows[at + 3];
        b |= rows[at + 7];
        c |= rows[at + 11];
        d |= rows[at + 15];
    }
    (a | b) | (c | d)
}

// The shards of all rows, also of a last one that is not whole.
fn all_of(rows: &[u64]) -> Row
    ensures { row_of result ≡ unite_below (row_in rows.now) (length rows.now / 4 + 1) }
{
    let n = rows.len() / 4;
    let mut acc = Row::none();
    for s in 0..n {
        acc = acc.union(Row::read_row(rows, s));
    }
    acc.union(part_in(rows, n))
}

// What lies above the first word: 64 less, and at least 0.
fn past(x: usize) -> usize
    ensures { result ≡ x - 64 }
{
    x.saturating_sub(64)
}

// The part in the first word.
fn within(x: usize) -> usize
    ensures { result ≡ min x 64 }
{
    x.min(64)
}

// The members from a up to e that the first word has.
fn span(a: usize, e: usize) -> u64
    requires { a ≤ e }
    ensures { result ≡ span a e }
{
    let lo = within(a);
    bitmap::run(lo, within(e) - lo)
}
