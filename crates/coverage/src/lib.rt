// The commit rule and the discard rule: whether the shards that heard replicas hold survive every listed failure.
#![tactic(auto)]

ghost use Rattle.std.specs.Prelude.{◌≡◌, ◌*◌, ◌≤◌, length};
ghost use Rattle.std.specs.List.{list_all, list_any};
ghost use Rattle.rows.specs.Row.{row_in};
ghost use Rattle.refusals.specs.Limits.{most_shards};
ghost use Rattle.refusals.specs.Refused.{refusal_of, outcome_of};
ghost use Rattle.coverage.specs.Walk.{walked, rows_united_of};
ghost use Rattle.coverage.specs.Coverage.{leaves, RowsBelow, is_covered, commits, covers_refusal, covers_of, completes, is_survived, survived_refusal, survived_of};

use refusals::{Refusal, unless};
use rows::{Row, ShardSet};

mod walk;

use walk::Rank;

// What the replicas heard hold of a value: there is a row, of four words, for each of the population, and no shard in them at or above the
// width.
#[derive(Clone, Copy)]
pub struct Holdings<'a> {
    pub population: usize,
    pub width: usize,
    pub heard: u64,
    pub rows: &'a [u64],
    ghost small: { population ≤ 16 },
    ghost narrow: { width ≤ most_shards },
    ghost whole: { population * 4 ≤ length rows.now },
    ghost below: { RowsBelow population width (row_in rows.now) },
}

impl Holdings<'_> {
    ghost use Rattle.coverage.specs.Walks.{ReadsRows};

    // Whether the rows of those heard survive every listed set. Nobody heard survives nothing.
    #[inline(always)]
    #[tactic(auto, unfolding(crate::specs::Coverage::is_covered))]
    pub fn is_covered(&self, d: usize, faults: &[u64]) -> bool
        ensures { result ≡ is_covered self.now.population d self.now.heard (row_in self.now.rows.now) faults.now }
    {
        self.heard != 0 && self.all_leave(d, faults)
    }

    // How many rows are united under a set.
    fn rows_united(&self, d: usize, fault: u64) -> usize
        ensures { result ≡ walked self.now.population d self.now.heard (row_in self.now.rows.now) fault }
    {
        if self.width <= 64 {
            return self.rows_united_as::<u64>(d, fault);
        }
        self.rows_united_as::<Row>(d, fault)
    }

    // The same with rows as sets of that type.
    fn rows_united_as<S: ShardSet>(&self, d: usize, fault: u64) -> usize
        requires { ReadsRows self.now (S.read self.now.rows.now) }
        ensures { result ≡ walked self.now.population d self.now.heard (row_in self.now.rows.now) fault }
    {
        let mut room = [Rank::none(); 16];
        self.in_order::<S>(d, &mut room).unite::<S>(fault).rows
    }

    // Whether it commits: at least a quorum is heard, and their rows survive every listed set.
    #[tactic(auto, unfolding(crate::specs::Coverage::commits))]
    pub fn commits(&self, quorum: usize, d: usize, faults: &[u64]) -> bool
        ensures { result ≡ commits self.now.population quorum d self.now.heard (row_in self.now.rows.now) faults.now }
    {
        quorum <= bitmap::count(self.heard) && self.is_covered(d, faults)
    }

    // Whether each listed set leaves at least d distinct shards. Of a width of at most 64 the first words are the rows.
    #[inline(always)]
    fn all_leave(&self, d: usize, faults: &[u64]) -> bool
        ensures { result ≡ list_all (leaves self.now.population d self.now.heard (row_in self.now.rows.now)) faults.now }
    {
        if self.width <= 64 {
            return self.all_leave_as::<u64>(d, faults);
        }
        self.all_leave_as::<Row>(d, faults)
    }

    // The same with rows as sets of that type.
    #[inline(always)]
    fn all_leave_as<S: ShardSet>(&self, d: usize, faults: &[u64]) -> bool
        requires { ReadsRows self.now (S.read self.now.rows.now) }
        ensures { result ≡ list_all (leaves self.now.population d self.now.heard (row_in self.now.rows.now)) faults.now }
    {
        // A copy, since what is behind the reference would be read again after each write to the array.
        let holdings = *self;
        let mut room = [Rank::none(); 16];
        holdings.in_order::<S>(d, &mut room).all_leave::<S>(faults)
    }
}

// The commit rule: without the replicas of any listed set, the rows of those heard still have at least d distinct shards.
#[tactic(auto, using(refusals::proofs::Entered::entered), unfolding(crate::specs::Coverage::covers_of))]
pub fn covers(
    n: usize,
    d: usize,
    w: usize,
    heard: u64,
    rows: &[u64],
    faults: &[u64],
) -> Result<bool, Refusal>
    ensures { outcome_of result ≡ covers_of n d w heard rows.now faults.now }
{
    check_covers(n, d, w, heard, rows, faults)?;
    let holdings = Holdings {
        population: n,
        width: w,
        heard,
        rows,
    };
    Ok(holdings.is_covered(d, faults))
}

// How many rows are united under the list's first set: those heard outside it are taken fuller rows first, then by number, until they have d
// distinct shards.
#[tactic(auto, using(refusals::proofs::Entered::entered), unfolding(crate::specs::Walk::rows_united_of))]
pub fn rows_united(
    n: usize,
    d: usize,
    w: usize,
    heard: u64,
    rows: &[u64],
    faults: &[u64],
) -> Result<usize, Refusal>
    ensures { outcome_of result ≡ rows_united_of n d w heard rows.now faults.now }
{
    check_covers(n, d, w, heard, rows, faults)?;
    let holdings = Holdings {
        population: n,
        width: w,
        heard,
        rows,
    };
    Ok(holdings.rows_united(d, bitmap::word_at(faults, 0)))
}

// The discard rule: those heard include all survivors of some listed set.
#[tactic(auto, using(refusals::proofs::Entered::entered), unfolding(crate::specs::Coverage::survived_of))]
pub fn survived_by(n: usize, heard: u64, faults: &[u64]) -> Result<bool, Refusal>
    ensures { outcome_of result ≡ survived_of n heard faults.now }
{
    check_survived(n, heard, faults)?;
    Ok(is_survived(n, heard, faults))
}

#[tactic(auto, unfolding(crate::specs::Coverage::covers_refusal, refusals::specs::Limits::is_population))]
fn check_covers(
    n: usize,
    d: usize,
    w: usize,
    heard: u64,
    rows: &[u64],
    faults: &[u64],
) -> Result<(), Refusal>
    ensures { refusal_of result ≡ covers_refusal n d w heard rows.now faults.now }
{
    unless(refusals::is_population(n), Refusal::Population)?;
    unless(refusals::is_shards(d, w), Refusal::Shards)?;
    unless(refusals::are_rows(w, rows), Refusal::Mask)?;
    unless(refusals::is_mask(n, heard), Refusal::Mask)?;
    unless(refusals::is_table(n, rows.len()), Refusal::Table)?;
    unless(refusals::is_fault_list(n, faults), Refusal::Table)
}

#[tactic(auto, unfolding(crate::specs::Coverage::survived_refusal, refusals::specs::Limits::is_population))]
fn check_survived(n: usize, heard: u64, faults: &[u64]) -> Result<(), Refusal>
    ensures { refusal_of result ≡ survived_refusal n heard faults.now }
{
    unless(refusals::is_population(n), Refusal::Population)?;
    unless(refusals::is_mask(n, heard), Refusal::Mask)?;
    unless(refusals::is_fault_list(n, faults), Refusal::Table)
}

// Whether some listed set contains every replica not heard. A part: n has been tested.
#[tactic(auto, using(bitmap::specs::RunLaws::run_all))]
fn is_survived(n: usize, heard: u64, faults: &[u64]) -> bool
    requires { n ≤ 64 }
    ensures { result ≡ is_survived n heard faults.now }
{
    any_completes(heard, faults, bitmap::run(0, n))
}

// Whether some set makes up the whole with those heard.
fn any_completes(heard: u64, faults: &[u64], whole: u64) -> bool
    ensures { result ≡ list_any (completes heard whole) faults.now }
{
    faults.iter().any(|fault| (*fault | heard) == whole)
}
