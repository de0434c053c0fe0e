// Plans: the assignment predicted to commit the soonest (pick_assignment), and full copies where there is none.
#![tactic(auto)]

ghost use Rattle.std.specs.Prelude.{◌≡◌, suc, ◌*◌, ◌^◌, ◌≤◌, length, Some};
ghost use Rattle.refusals.specs.Refused.{refusal_of, outcome_of, outcome_by};
ghost use Rattle.times.specs.Times.{PeersInBounds, shard_length, times_of};
ghost use Rattle.candidates.specs.Search.{answered_at};
ghost use Rattle.assignment.specs.Plans.{pick_refusal, picked, pick_of, planned, copies_refusal, copies_width, full_copies_of, copies_written};
ghost use Rattle.assignment.specs.Planned.{rule_plan, rule_laid_out, search_plan, search_plan_at, search_loads};

use bitmap::ReplicaId;
use candidates::Search;
use layout::{CommitRule, TotalShards};
use refusals::{Refusal, unless};
use rows::{Row, ShardId, ShardSet};
use times::{PeerRecord, TimeTable};

// So many data shards have a table of times of their own, so that a small plan does not clear the large one.
const NARROW: usize = 64;

// The times of 16 replicas at the loads 0 to that many.
const NARROW_TIMES: usize = 1040;

// At the loads 0 to the most shards.
const MOST_TIMES: usize = 4096;

// A plan: the predicted time, and the width of its rows, which are in the lent table.
#[derive(Clone, Copy)]
pub struct Plan {
    pub time: f64,
    pub width: usize,
}

// Picks the assignment predicted to commit the soonest for a value of `size` bytes under d data shards and the total. Commits need replies
// from at least a quorum that pass the commit rule.
pub fn pick_assignment(
    n: usize,
    own: ReplicaId,
    quorum: usize,
    d: usize,
    total: TotalShards,
    size: u64,
    peers: [PeerRecord; 16],
    penalty: f64,
    faults: &[u64],
    rows: &mut [u64],
) -> Result<Option<Plan>, Refusal>
    ensures answer { outcome_by (picked rows.new) result ≡ pick_of n own.0 quorum d total size peers penalty faults.now (length rows.old) }
    ensures words { rows.new ≡ planned (pick_of n own.0 quorum d total size peers penalty faults.now (length rows.old)) rows.old }
{
    check_pick(n, own, quorum, d, total, size, peers, faults, rows.len())?;
    let rule = CommitRule {
        population: n,
        quorum,
        data_shards: d,
        total,
        faults,
    };
    if d <= NARROW {
        return pick_with_room::<NARROW_TIMES>(&rule, own, size, peers, penalty, rows);
    }
    pick_with_room::<MOST_TIMES>(&rule, own, size, peers, penalty, rows)
}

// Full copies for everyone: the width d under a ceiling, else the exact one.
#[tactic(auto, using(refusals::proofs::Entered::entered), unfolding(crate::specs::Plans::full_copies_of, crate::specs::Plans::copies_written))]
pub fn full_copies(
    n: usize,
    d: usize,
    total: TotalShards,
    rows: &mut [u64],
) -> Result<usize, Refusal>
    ensures answer { outcome_of result ≡ full_copies_of n d total (length rows.old) }
    ensures words { rows.new ≡ copies_written n d total rows.old }
{
    check_copies(n, d, total, rows.len())?;
    Row::run(ShardId(0), d).fill(n, rows);
    Ok(copies_width(d, total))
}

// Refuses what a plan can't be picked from.
#[tactic(auto, unfolding(crate::specs::Plans::pick_refusal))]
pub fn check_pick(
    n: usize,
    own: ReplicaId,
    quorum: usize,
    d: usize,
    total: TotalShards,
    size: u64,
    peers: [PeerRecord; 16],
    faults: &[u64],
    rows: usize,
) -> Result<(), Refusal>
    ensures { refusal_of result ≡ pick_refusal n own.0 quorum d total size peers faults.now rows }
{
    unless(refusals::is_population(n), Refusal::Population)?;
    unless(refusals::is_replica(n, own), Refusal::Replica)?;
    unless(refusals::is_shards(d, total.bound()), Refusal::Shards)?;
    unless(refusals::is_quorum(n, quorum), Refusal::Quorum)?;
    unless(refusals::is_size(size), Refusal::Bytes)?;
    unless(
        refusals::peers_fit(n, own, |p| peers[p].inflight),
        Refusal::Bytes,
    )?;
    unless(refusals::is_fault_list(n, faults), Refusal::Table)?;
    unless(refusals::is_table(n, rows), Refusal::Table)
}

#[tactic(auto, unfolding(crate::specs::Plans::copies_refusal))]
fn check_copies(n: usize, d: usize, total: TotalShards, rows: usize) -> Result<(), Refusal>
    ensures { refusal_of result ≡ copies_refusal n d total rows }
{
    unless(refusals::is_population(n), Refusal::Population)?;
    unless(refusals::is_shards(d, total.bound()), Refusal::Shards)?;
    unless(refusals::is_table(n, rows), Refusal::Table)
}

fn copies_width(d: usize, total: TotalShards) -> usize
    ensures { result ≡ copies_width d total }
{
    match total {
        TotalShards::Exactly(w) => w,
        TotalShards::AtMost(_) => d,
    }
}

// The plan, by a table with room for so many times. A part: the size, the bytes in flight to the peers and the lent table have been tested.
// Kept as it is: a struct of rule and lent rows is no plainer, as its methods must ensure that the rule stays the same (so below).
#[inline(never)]
fn pick_with_room<const TIMES: usize>(
    rule: &CommitRule,
    own: ReplicaId,
    size: u64,
    peers: [PeerRecord; 16],
    penalty: f64,
    rows: &mut [u64],
) -> Result<Option<Plan>, Refusal>
    requires room { rule.now.population * suc rule.now.data_shards ≤ TIMES }
    requires few { TIMES ≤ 4096 }
    requires size { size ≤ 2 ^ 30 }
    requires in_bounds { PeersInBounds rule.now.population own.0 peers }
    requires table { length rows.old ≡ rule.now.population * 4 }
    ensures answer { outcome_by (picked rows.new) result ≡ rule_plan rule.now own.0 (times_of rule.now.population own.0 rule.now.data_shards (shard_length size rule.now.data_shards) peers penalty) }
    ensures words { rows.new ≡ planned (rule_plan rule.now own.0 (times_of rule.now.population own.0 rule.now.data_shards (shard_length size rule.now.data_shards) peers penalty)) rows.old }
{
    let mut room = [0.0f64; TIMES];
    let times = &mut room[..rule.population * (rule.data_shards + 1)];
    times::fill_times(
        rule.population,
        own,
        rule.data_shards,
        times::shard_length(size, rule.data_shards),
        peers,
        penalty,
        times,
    );
    let times = TimeTable {
        population: rule.population,
        own,
        data_shards: rule.data_shards,
        times,
    };
    let rule = *rule;
    plan_from(&Search { rule, times }, rows)
}

// The plan that a search finds. A part: the lent table is one of the population.
fn plan_from(search: &Search, rows: &mut [u64]) -> Result<Option<Plan>, Refusal>
    requires { length rows.old ≡ search.now.rule.population * 4 }
    ensures answer { outcome_by (picked rows.new) result ≡ search_plan search.now }
    ensures words { rows.new ≡ planned (search_plan search.now) rows.old }
{
    match search.first_time() {
        None => Ok(None),
        Some(t) => plan_at(search, t, rows),
    }
}

// The plan at a time: its loads, trimmed, laid out and tested once more.
fn plan_at(search: &Search, t: f64, rows: &mut [u64]) -> Result<Option<Plan>, Refusal>
    requires { length rows.old ≡ search.now.rule.population * 4 }
    ensures answer { outcome_by (picked rows.new) result ≡ search_plan_at search.now (Some t) }
    ensures words { rows.new ≡ planned (search_plan_at search.now (Some t)) rows.old }
{
    let mut loads = [0usize; 16];
    let loads = &mut loads[..search.rule.population];
    let answered = loads_for(search, t, loads);
    lay_out(&search.rule, answered, t, loads, rows)
}

// The loads at a time, trimmed, and the mask of those that answer.
fn loads_for(search: &Search, t: f64, loads: &mut [usize]) -> u64
    requires { length loads.old ≡ search.now.rule.population }
    ensures mask { result ≡ answered_at search.now.times.own.0 search.now.rule.data_shards search.now.times.times.now t search.now.rule.population }
    ensures loads { loads.new ≡ search_loads search.now t }
{
    let answered = candidates::loads_at(&search.times, t, loads);
    let mut room = [ReplicaId(0); 16];
    let order = trimming::trim_order(&search.times, &mut room);
    trimming::trim(&search.rule, answered, order, loads);
    answered
}

// Lays the trimmed loads out, after one more test whether they commit.
fn lay_out(
    rule: &CommitRule,
    answered: u64,
    t: f64,
    loads: &[usize],
    rows: &mut [u64],
) -> Result<Option<Plan>, Refusal>
    requires { (length loads.now ≡ rule.now.population) × (length rows.old ≡ rule.now.population * 4) }
    ensures answer { outcome_by (picked rows.new) result ≡ rule_laid_out rule.now answered t loads.now }
    ensures words { rows.new ≡ planned (rule_laid_out rule.now answered t loads.now) rows.old }
{
    unless(rule.commits(answered, loads), Refusal::Trimmed)?;
    let width = layout::lay(rule.data_shards, rule.total, loads, rows);
    Ok(Some(Plan { time: t, width }))
}
