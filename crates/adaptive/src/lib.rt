// The balanced policy: the fewest shards a replica may hold under the peers now alive (min_shards_per_replica), and the assignment that the
// models favour (pick_assignment_policy), as a choice and as the rows that it stands for.
#![tactic(auto)]

ghost use Rattle.std.specs.Prelude.{◌≡◌, ◌+◌, ◌*◌, ◌≤◌, ◌<◌, ◌^◌, length, take, drop};
ghost use Rattle.rows.specs.Row.{rows_in, spelled};
ghost use Rattle.refusals.specs.Limits.{most_shards};
ghost use Rattle.refusals.specs.Outcome.{accepted};
ghost use Rattle.refusals.specs.Refused.{refusal_of, outcome_of, outcome_by};
ghost use Rattle.adaptive.specs.Floor.{floor_of, floor_refusal, min_shards_of};
ghost use Rattle.adaptive.specs.Policy.{is_balanced_table, has_count, best_shards, refusal_for, chosen, policy_for, rows_of, Holds};

use bitmap::ReplicaId;
use refusals::{Refusal, unless};
use rows::{Row, ShardSet};
use steps::{Peers, Scheme};

// What a choice is made from: the numbers of the scheme, our own number, the width of the rows, the size of the value in bytes; of each
// replica the bytes in flight to it, and three numbers of its model, slope in ms a MiB, delay and jitter in ms; those alive; and two tables
// of rows, four words a row: the initial layout, and the balanced table, which is empty or has n rows for each count from d / majority
// to d.
// Kept as it is: C lends the bytes in flight and the models as two parallel tables, which are refused one after the other.
#[derive(Clone, Copy)]
pub struct PolicyInput<'p, 'a> {
    pub population: usize,
    pub tolerance: usize,
    pub own: ReplicaId,
    pub data_shards: usize,
    pub width: usize,
    pub majority: usize,
    pub size: u64,
    pub inflight: &'p [u64],
    pub models: &'p [f64],
    pub alive: u64,
    pub initial: &'a [u64],
    pub table: &'a [u64],
    pub adaptive: bool,
    pub balanced: bool,
}

// The initial layout, or the rows of so many shards a replica of the balanced table.
// Kept as it is: an Option is no plainer, since None does not say that the rows are those of the initial layout.
#[derive(Clone, Copy, Debug, PartialEq, Eq)]
pub enum Policy {
    Initial,
    Balanced(usize),
}

impl Policy {
    // The rows of the choice. A part: the tables have them.
    fn rows<'a>(
        self,
        n: usize,
        d: usize,
        majority: usize,
        initial: &'a [u64],
        table: &'a [u64],
    ) -> &'a [u64]
        requires { Holds n d majority (accepted (chosen self)) (length initial.now) (length table.now) }
        ensures { result.now ≡ spelled (rows_of n d majority (accepted (chosen self)) (rows_in initial.now) (rows_in table.now)) }
    {
        match self {
            Policy::Initial => initial,
            Policy::Balanced(shards) => rows_from(n, (shards - d / majority) * n, table),
        }
    }
}

// The fewest shards a replica, all having equally many, with which those alive still answer.
#[tactic(auto, unfolding(crate::specs::Floor::min_shards_of))]
pub fn min_shards_per_replica(
    n: usize,
    f: usize,
    d: usize,
    majority: usize,
    alive: u64,
) -> Result<usize, Refusal>
    ensures { outcome_of result ≡ min_shards_of n f d majority alive }
{
    check_floor(n, f, d, majority, alive)?;
    let scheme = Scheme {
        population: n,
        tolerance: f,
        data_shards: d,
        majority,
    };
    Ok(floor_of(scheme, bitmap::count(alive)))
}

// Picks the assignment for a value and the peers now alive: the initial layout, or a count of the balanced table.
#[tactic(auto, unfolding(crate::specs::Policy::policy_of))]
pub fn pick_assignment_policy(input: &PolicyInput) -> Result<Policy, Refusal>
    ensures { outcome_by chosen result ≡ policy_for input.now }
{
    check_policy(input)?;
    if !input.balanced {
        return Ok(Policy::Initial);
    }
    let scheme = Scheme {
        population: input.population,
        tolerance: input.tolerance,
        data_shards: input.data_shards,
        majority: input.majority,
    };
    let peers = Peers {
        own: input.own,
        inflight: input.inflight,
        models: input.models,
    };
    let best = best_shards(scheme, &peers, input.size, input.initial, input.adaptive);
    let shards = best.max(floor_of(scheme, bitmap::count(input.alive)));
    if has_count(scheme, input.table.len(), shards) {
        Ok(Policy::Balanced(shards))
    } else {
        Ok(Policy::Initial)
    }
}

// The rows of that choice: a part of one of the two lent tables, empty where the input is refused.
pub fn pick_assignment_policy_rows<'a>(input: &PolicyInput<'_, 'a>) -> &'a [u64]
    ensures { result.now ≡ spelled (rows_of input.now.population input.now.data_shards input.now.majority (policy_for input.now) (rows_in input.now.initial.now) (rows_in input.now.table.now)) }
{
    rows_of(
        input.population,
        input.data_shards,
        input.majority,
        pick_assignment_policy(input),
        input.initial,
        input.table,
    )
}

// The rows of a choice. A part: the tables have them.
pub fn rows_of<'a>(
    n: usize,
    d: usize,
    majority: usize,
    choice: Result<Policy, Refusal>,
    initial: &'a [u64],
    table: &'a [u64],
) -> &'a [u64]
    requires { Holds n d majority (outcome_by chosen choice) (length initial.now) (length table.now) }
    ensures { result.now ≡ spelled (rows_of n d majority (outcome_by chosen choice) (rows_in initial.now) (rows_in table.now)) }
{
    match choice {
        Ok(policy) => policy.rows(n, d, majority, initial, table),
        Err(_) => &[],
    }
}

// The n rows from the row k on, of four words each. A part: the table has them.
fn rows_from<'a>(n: usize, k: usize, table: &'a [u64]) -> &'a [u64]
    requires { (k + n) * 4 ≤ length table.now }
    ensures { result.now ≡ take (n * 4) (drop (k * 4) table.now) }
{
    &table[k * 4..][..n * 4]
}

#[tactic(auto, unfolding(crate::specs::Floor::floor_refusal))]
fn check_floor(n: usize, f: usize, d: usize, majority: usize, alive: u64) -> Result<(), Refusal>
    ensures { refusal_of result ≡ floor_refusal n f d majority alive }
{
    unless(refusals::is_population(n), Refusal::Population)?;
    unless(refusals::is_tolerance(n, f), Refusal::Tolerance)?;
    unless(refusals::is_shards(d, d), Refusal::Shards)?;
    unless(refusals::is_quorum(n, majority), Refusal::Quorum)?;
    unless(d % majority == 0, Refusal::Multiple)?;
    unless(refusals::is_mask(n, alive), Refusal::Mask)
}

#[tactic(auto, unfolding(crate::specs::Policy::policy_refusal))]
fn check_policy(input: &PolicyInput) -> Result<(), Refusal>
    ensures { refusal_of result ≡ refusal_for input.now }
{
    let n = input.population;
    let d = input.data_shards;
    let majority = input.majority;
    unless(refusals::is_population(n), Refusal::Population)?;
    unless(
        refusals::is_tolerance(n, input.tolerance),
        Refusal::Tolerance,
    )?;
    unless(refusals::is_replica(n, input.own), Refusal::Replica)?;
    unless(refusals::is_shards(d, input.width), Refusal::Shards)?;
    unless(refusals::is_quorum(n, majority), Refusal::Quorum)?;
    unless(d % majority == 0, Refusal::Multiple)?;
    unless(refusals::is_size(input.size), Refusal::Bytes)?;
    unless(
        refusals::peers_fit(n, input.own, |p| bitmap::word_at(input.inflight, p)),
        Refusal::Bytes,
    )?;
    unless(refusals::is_mask(n, input.alive), Refusal::Mask)?;
    unless(
        refusals::are_rows(input.width, input.initial),
        Refusal::Mask,
    )?;
    unless(refusals::are_rows(input.width, input.table), Refusal::Mask)?;
    unless(input.inflight.len() == n, Refusal::Table)?;
    unless(input.models.len() == n * 3, Refusal::Table)?;
    unless(refusals::is_table(n, input.initial.len()), Refusal::Table)?;
    unless(
        is_balanced_table(n, d, majority, input.table.len()),
        Refusal::Table,
    )
}

// Whether a balanced table has that many words: those of n rows for each count, or none. A part: the numbers have been tested.
fn is_balanced_table(n: usize, d: usize, majority: usize, len: usize) -> bool
    requires few_replicas { n ≤ 16 }
    requires few_shards { d ≤ most_shards }
    requires some_majority { 0 < majority }
    ensures { result ≡ is_balanced_table n d majority len }
{
    len == 0 || refusals::is_table(n * (d - d / majority + 1), len)
}

// Whether a balanced table of that many words has the count.
fn has_count(scheme: Scheme, len: usize, shards: usize) -> bool
    ensures { result ≡ has_count scheme.data_shards scheme.majority len shards }
{
    len != 0 && scheme.share() <= shards && shards <= scheme.data_shards
}

// The fewest shards a replica: with many replicas alive any assignment works, with too few full copies are the most careful.
#[tactic(auto, unfolding(crate::specs::Floor::floor_of))]
fn floor_of(scheme: Scheme, alive: usize) -> usize
    ensures { result ≡ floor_of scheme.tolerance scheme.data_shards scheme.majority alive }
{
    let most = scheme.majority + scheme.tolerance + 1;
    if most <= alive {
        return 0;
    }
    ((most - alive) * scheme.share()).min(scheme.data_shards)
}

// The shards a replica that the models favour; without adaptivity, those of the first row of the initial layout. A part: the size has been
// tested, and the peers are those of the scheme.
#[tactic(auto, unfolding(crate::specs::Policy::best_shards))]
fn best_shards(scheme: Scheme, peers: &Peers, size: u64, initial: &[u64], adaptive: bool) -> usize
    requires a_word_each { length peers.now.inflight.now ≡ scheme.population }
    requires small_size { size ≤ 2 ^ 30 }
    requires a_row_each { length initial.now ≡ scheme.population * 4 }
    ensures { result ≡ best_shards scheme.population scheme.tolerance peers.now.own.0 scheme.data_shards scheme.majority size peers.now.inflight.now peers.now.models.now initial.now adaptive }
{
    if adaptive {
        (steps::best_step(scheme, peers, size) + 1) * scheme.share()
    } else {
        Row::read_row(initial, 0).count()
    }
}
