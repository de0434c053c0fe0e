// Why an entry refuses, and the range checks that several entries share.
#![tactic(auto)]

ghost use Rattle.std.specs.Prelude.{◌≡◌, ℕ, ◌≤◌, ◌<◌, cond};
ghost use Rattle.std.specs.List.{list_all};
ghost use Rattle.bitmap.specs.Mask.{is_below};
ghost use Rattle.refusals.specs.Limits.{is_population, is_tolerance, is_replica, is_shards, is_quorum, is_size, is_in_flight, is_overfull, is_mask, is_row, are_rows, is_table, is_under, is_fault_list, peers_fit, GivesBelow};
ghost use Rattle.refusals.specs.Refused.{number_of, refusal_of};
ghost use Rattle.rows.specs.Row.{row_of};

use bitmap::ReplicaId;
use rows::Row;

// The most shards that a value is cut into.
pub const MOST_SHARDS: usize = 255;

// Why an entry refuses. The numbers are those of the C interface; a program names the case.
#[derive(Clone, Copy, Debug, PartialEq, Eq)]
pub enum Refusal {
    // The population.
    Population = 1,
    // The fault tolerance.
    Tolerance = 2,
    // A replica's number, be it our own, a peer's or the source's, is not below the population.
    Replica = 3,
    // The data shards or the width.
    Shards = 4,
    // The quorum or the majority.
    Quorum = 5,
    // A text too long, or with a byte above 127.
    Text = 6,
    // A malformed numeral, or a whole number above 255.
    Numeral = 7,
    // A well-formed decimal beyond the digit rule.
    Digits = 8,
    // A replica or shard number in a text or a profile outside its range.
    Member = 9,
    // An unknown mechanism.
    Mechanism = 10,
    // Probabilities: their count, one of them, or the threshold.
    Probabilities = 11,
    // A 65th domain.
    Domains = 12,
    // A layout text that is neither a fitting number nor segments with colons.
    Layout = 13,
    // Total shards no multiple of the population, or data shards no multiple of the majority.
    Multiple = 14,
    // The size or the bytes in flight too large.
    Bytes = 15,
    // A row with a shard at or above the width, or a mask with a replica at or above the population.
    Mask = 16,
    // A lent table of the wrong length, or no fault list.
    Table = 17,
    // The profile and the tolerance give a set that contains every replica.
    EveryReplica = 21,
    // More maximal sets than words in the lent list.
    Room = 22,
    // A reply whose ballot or value id differs from the tally's.
    OtherValue = 23,
    // A trimmed plan that no longer commits.
    Trimmed = 24,
}

impl Refusal {
    ghost use Rattle.refusals.specs.Refused.{number_of};

    // The number of the case.
    // Kept as it is: From is no plainer, since u8::from(refusal) does not say that it is the number.
    pub fn number(self) -> u8
        ensures { result ≡ number_of self }
    {
        self as u8
    }
}

// Refuses unless the test holds.
#[inline]
pub fn unless(holds: bool, refusal: Refusal) -> Result<(), Refusal>
    ensures { refusal_of result ≡ cond holds 0 (number_of refusal) }
{
    if holds { Ok(()) } else { Err(refusal) }
}

// From 1 to 16 replicas.
pub fn is_population(n: usize) -> bool
    ensures { result ≡ is_population n }
{
    if n < 1 {
        return false;
    }
    n <= 16
}

// A tolerance from 0 to n - 1.
pub fn is_tolerance(n: usize, f: usize) -> bool
    ensures { result ≡ is_tolerance n f }
{
    f < n
}

// The number of one of n replicas.
pub fn is_replica(n: usize, s: ReplicaId) -> bool
    ensures { result ≡ is_replica n s.0 }
{
    s.0 < n
}

// From 1 to MOST_SHARDS data shards, and a width, or its ceiling, from those to MOST_SHARDS.
pub fn is_shards(d: usize, w: usize) -> bool
    ensures { result ≡ is_shards d w }
{
    if d < 1 {
        return false;
    }
    if w < d {
        return false;
    }
    w <= MOST_SHARDS
}

// A quorum, or a majority, from 1 to n.
pub fn is_quorum(n: usize, q: usize) -> bool
    ensures { result ≡ is_quorum n q }
{
    if q < 1 {
        return false;
    }
    q <= n
}

// A value of at most 2^30 bytes.
pub fn is_size(bytes: u64) -> bool
    ensures { result ≡ is_size bytes }
{
    bytes <= 0x4000_0000
}

// At most 2^40 bytes in flight to a peer.
pub fn is_in_flight(bytes: u64) -> bool
    ensures { result ≡ is_in_flight bytes }
{
    bytes <= 0x100_0000_0000
}

// Whether p is a peer, and too many bytes are in flight to it.
pub fn is_overfull(own: ReplicaId, p: ReplicaId, bytes: u64) -> bool
    ensures { result ≡ is_overfull own.0 p.0 bytes }
{
    if p.0 == own.0 {
        return false;
    }
    !is_in_flight(bytes)
}

// Whether to none of the peers are too many bytes in flight: of each replica `bytes` gives those in flight to it.
// Kept as it is: all is no plainer: as bytes may be called below n alone, its closure needs a requires and an ensures of its own.
pub fn peers_fit<F: Fn(usize) -> u64>(n: usize, own: ReplicaId, bytes: F) -> bool
    requires { (p : ℕ) → p < n → F.pre bytes p }
    ensures { (in_flight : ℕ → ℕ) → GivesBelow (F.post bytes) n in_flight → result ≡ peers_fit n own.0 in_flight }
{
    for p in 0..n {
        if is_overfull(own, ReplicaId(p), bytes(p)) {
            return false;
        }
    }
    true
}

// A mask of some of n replicas.
pub fn is_mask(n: usize, m: u64) -> bool
    ensures { result ≡ is_mask n m }
{
    bitmap::is_below(m, n)
}

// A row of shards below w.
pub fn is_row(w: usize, row: Row) -> bool
    ensures { result ≡ is_row w (row_of row) }
{
    row.is_below(w)
}

// Rows of shards below w, in a table of four words a row.
pub fn are_rows(w: usize, table: &[u64]) -> bool
    ensures { result ≡ are_rows w table.now }
{
    rows::are_below(table, w)
}

// The words of a table of n rows, four words a row.
// Kept as it is: is_records of c_types, which lies above, is no plainer: it takes the words of a replica, and asks that they are not 0.
pub fn is_table(n: usize, words: usize) -> bool
    ensures { result ≡ is_table n words }
{
    if words % 4 != 0 {
        return false;
    }
    words / 4 == n
}

// Masks of some of n replicas.
pub fn are_masks(n: usize, masks: &[u64]) -> bool
    ensures { result ≡ list_all (is_mask n) masks.now }
{
    are_below(masks, n)
}

// A fault list: some sets, none of them with a replica at or above n, or with all n. A part: n has been tested.
pub fn is_fault_list(n: usize, faults: &[u64]) -> bool
    requires { n ≤ 64 }
    ensures { result ≡ is_fault_list n faults.now }
{
    if faults.len() == 0 {
        return false;
    }
    are_under(faults, bitmap::run(0, n))
}

// Whether every mask is below the limit, as a number. Without a branch on one, so that several are compared at once.
fn are_under(masks: &[u64], limit: u64) -> bool
    ensures { result ≡ list_all (is_under limit) masks.now }
{
    let mut under = true;
    for mask in masks {
        under = under & (*mask < limit);
    }
    under
}

// Whether every member of every mask is below w.
fn are_below(masks: &[u64], w: usize) -> bool
    ensures { result ≡ list_all (is_below w) masks.now }
{
    masks.iter().all(|mask| bitmap::is_below(*mask, w))
}
