// Layouts: the rows of given loads, and whether replies from those that answer commit (layout_rows, layout_commits).
#![tactic(auto)]

ghost use Rattle.std.specs.Prelude.{◌≡◌, cond, ◌*◌, ◌≤◌, length};
ghost use Rattle.lists.specs.Below.{each_below, front};
ghost use Rattle.bitmap.specs.Mask.{has_bit};
ghost use Rattle.rows.specs.Row.{row_of, spelled};
ghost use Rattle.refusals.specs.Limits.{most_shards};
ghost use Rattle.refusals.specs.Refused.{refusal_of, outcome_of, outcome_by};
ghost use Rattle.layout.specs.Layout.{Fit, bound, dealt, partial, width_of, row_for, row_at, rows_of, heard_loads, rows_refusal, commits_refusal, tested, layout_rows_of, layout_commits_of, rows_written, trial_written};

use bitmap::ReplicaId;
use coverage::Holdings;
use refusals::{Refusal, unless};
use rows::{Row, ShardId, ShardSet};

mod rule;

pub use rule::CommitRule;

// The number of shards to lay rows out in: exactly that of an existing code scheme, or at most a bound for a new one.
#[derive(Clone, Copy)]
pub enum TotalShards {
    Exactly(usize),
    AtMost(usize),
}

impl TotalShards {
    // The exact width, or its ceiling.
    pub fn bound(self) -> usize
        ensures { result ≡ bound self }
    {
        match self {
            TotalShards::Exactly(w) => w,
            TotalShards::AtMost(w) => w,
        }
    }
}

// A layout that was tested: its width, and whether replies from those that answer commit. Its rows are in the lent table.
#[derive(Clone, Copy)]
pub struct Trial {
    pub width: usize,
    pub commits: bool,
}

// The rows of n loads, written to the lent table: a full row gets the data shards, the others disjoint shards in order, wrapping round at
// the width.
#[tactic(auto, using(refusals::proofs::Entered::entered), unfolding(crate::specs::Layout::layout_rows_of, crate::specs::Layout::rows_written))]
pub fn layout_rows(
    n: usize,
    d: usize,
    total: TotalShards,
    loads: &[usize],
    rows: &mut [u64],
) -> Result<usize, Refusal>
    ensures answer { outcome_of result ≡ layout_rows_of n d total loads.now (length rows.old) }
    ensures words { rows.new ≡ rows_written n d total loads.now rows.old }
{
    check_rows(n, d, total, loads.len(), rows.len())?;
    Ok(lay(d, total, loads, rows))
}

// The same of the loads of those that answer, and whether replies from these commit: there are at least a quorum of them, and they pass the
// commit rule.
#[tactic(auto, using(refusals::proofs::Entered::entered), unfolding(crate::specs::Layout::layout_commits_of, crate::specs::Layout::trial_written))]
pub fn layout_commits(
    n: usize,
    quorum: usize,
    d: usize,
    total: TotalShards,
    answered: u64,
    loads: &[usize],
    faults: &[u64],
    rows: &mut [u64],
) -> Result<Trial, Refusal>
    ensures answer { outcome_by tested result ≡ layout_commits_of n quorum d total answered loads.now faults.now (length rows.old) }
    ensures words { rows.new ≡ trial_written n quorum d total answered loads.now faults.now rows.old }
{
    check_commits(
        n,
        quorum,
        d,
        total,
        answered,
        loads.len(),
        faults,
        rows.len(),
    )?;
    let mut heard = [0usize; 16];
    let heard = &mut heard[..n];
    heard_loads(answered, loads, heard);
    let rule = CommitRule {
        population: n,
        quorum,
        data_shards: d,
        total,
        faults,
    };
    Ok(rule.trial(answered, heard, rows))
}

impl CommitRule<'_> {
    ghost use Rattle.layout.specs.Rule.{rule_commits};

    // Lays the loads out in the lent table, and tests the layout, where those of the mask answer. In line, since as a call it was slower.
    #[inline(always)]
    fn trial(&self, answered: u64, loads: &[usize], rows: &mut [u64]) -> Trial
        requires a_load_each { length loads.now ≡ self.now.population }
        requires a_row_each { length rows.old ≡ self.now.population * 4 }
        ensures answer { tested result ≡ (width_of self.now.data_shards self.now.total loads.now, rule_commits self.now answered loads.now) }
        ensures words { rows.new ≡ spelled (rows_of self.now.data_shards self.now.total loads.now) }
    {
        let width = lay(self.data_shards, self.total, loads, rows);
        let holdings = Holdings {
            population: self.population,
            width,
            heard: answered,
            rows,
        };
        let commits = holdings.commits(self.quorum, self.data_shards, self.faults);
        Trial { width, commits }
    }
}

// Lays the loads out at the front of the table, and gives the width. A part: the shards have been tested, and there are four words for each
// load.
pub fn lay(d: usize, total: TotalShards, loads: &[usize], rows: &mut [u64]) -> usize
    requires { Fit d (bound total) × (length loads.now ≤ 16) × (length loads.now * 4 ≤ length rows.old) }
    ensures width { result ≡ width_of d total loads.now }
    ensures words { rows.new ≡ front (spelled (rows_of d total loads.now)) rows.old }
{
    let width = width_of(d, total, loads);
    let layout = Layout {
        data_shards: d,
        width,
        loads,
    };
    layout.deal(rows);
    width
}

#[tactic(auto, unfolding(crate::specs::Layout::rows_refusal))]
fn check_rows(
    n: usize,
    d: usize,
    total: TotalShards,
    loads: usize,
    rows: usize,
) -> Result<(), Refusal>
    ensures { refusal_of result ≡ rows_refusal n d total loads rows }
{
    unless(refusals::is_population(n), Refusal::Population)?;
    unless(refusals::is_shards(d, total.bound()), Refusal::Shards)?;
    unless(loads == n, Refusal::Table)?;
    unless(refusals::is_table(n, rows), Refusal::Table)
}

#[tactic(auto, unfolding(crate::specs::Layout::commits_refusal, refusals::specs::Limits::is_population))]
fn check_commits(
    n: usize,
    quorum: usize,
    d: usize,
    total: TotalShards,
    answered: u64,
    loads: usize,
    faults: &[u64],
    rows: usize,
) -> Result<(), Refusal>
    ensures { refusal_of result ≡ commits_refusal n quorum d total answered loads faults.now rows }
{
    unless(refusals::is_population(n), Refusal::Population)?;
    unless(refusals::is_shards(d, total.bound()), Refusal::Shards)?;
    unless(refusals::is_quorum(n, quorum), Refusal::Quorum)?;
    unless(refusals::is_mask(n, answered), Refusal::Mask)?;
    unless(loads == n, Refusal::Table)?;
    unless(refusals::is_fault_list(n, faults), Refusal::Table)?;
    unless(refusals::is_table(n, rows), Refusal::Table)
}

// The width that the loads are laid out in. For a ceiling the loads below d are summed.
fn width_of(d: usize, total: TotalShards, loads: &[usize]) -> usize
    requires { (d ≤ most_shards) × (length loads.now ≤ 16) }
    ensures { result ≡ width_of d total loads.now }
{
    match total {
        TotalShards::Exactly(w) => w,
        TotalShards::AtMost(w) => {
            let mut sum = 0;
            for k in loads {
                sum += dealt(d, *k);
            }
            sum.max(d).min(w)
        }
    }
}

// The part of a load that is dealt: all of it if it is below d.
fn dealt(d: usize, k: usize) -> usize
    ensures { result ≡ dealt d k }
{
    if k < d { k } else { 0 }
}

// Loads that are dealt the shards of a width in turn.
#[derive(Clone, Copy)]
struct Layout<'a> {
    data_shards: usize,
    width: usize,
    loads: &'a [usize],
    ghost fits: { Fit data_shards width },
    ghost few: { length loads.now ≤ 16 },
}

impl Layout<'_> {
    // Writes the rows to the front of the table.
    fn deal(&self, rows: &mut [u64])
        requires { length self.now.loads.now * 4 ≤ length rows.old }
        ensures { rows.new ≡ front (spelled (each_below (row_at self.now.data_shards self.now.width self.now.loads.now) (length self.now.loads.now))) rows.old }
    {
        let mut offset = ShardId(0);
        for (s, k) in self.loads.iter().enumerate() {
            let row = self.row_at(offset, *k);
            offset = ShardId(offset.0 + dealt(self.data_shards, *k));
            row.put(rows, s);
        }
    }

    // The row of a load at an offset. Of a width of at most 64 it is one word.
    fn row_at(&self, offset: ShardId, k: usize) -> Row
        ensures { row_of result ≡ row_for self.now.data_shards self.now.width offset.0 k }
    {
        if self.width <= 64 {
            return self.row_for::<u64>(offset, k).row();
        }
        self.row_for::<Row>(offset, k)
    }

    // The same as a set that has room for the width.
    fn row_for<S: ShardSet>(&self, offset: ShardId, k: usize) -> S
        requires { self.now.width ≤ S.room }
        ensures { S.members result ≡ row_for self.now.data_shards self.now.width offset.0 k }
    {
        if k < self.data_shards {
            return S::run_modulo(offset, k, self.width);
        }
        S::run(ShardId(0), self.data_shards)
    }
}

// The loads of those that answer, and 0 for the others.
fn heard_loads(answered: u64, loads: &[usize], heard: &mut [usize])
    requires { length heard.old ≡ length loads.now }
    ensures { heard.new ≡ heard_loads answered loads.now }
{
    for (s, load) in heard.iter_mut().enumerate() {
        *load = heard_load(answered, loads[s], ReplicaId(s));
    }
}

fn heard_load(answered: u64, k: usize, s: ReplicaId) -> usize
    ensures { result ≡ cond (has_bit answered s.0) k 0 }
{
    if bitmap::has_replica(answered, s) {
        k
    } else {
        0
    }
}
