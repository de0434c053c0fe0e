// Predicted reply times: a performance model, a peer, and the times of a plan for every replica at every load.
#![tactic(auto)]

ghost use Rattle.std.specs.Prelude.{◌≡◌, suc, ◌*◌, ◌^◌, ◌<◌, ◌≤◌, false, length};
ghost use Rattle.times.specs.Times.{InBounds, PeersInBounds, most_times, predict_of, settled, reply_time, time_at, shard_length, times_of, time_in};
ghost use Rattle.refusals.specs.Limits.{most_shards};

use bitmap::ReplicaId;

mod table;

pub use table::TimeTable;

// The performance model of a peer: slope in ms a MiB, delay and jitter in ms.
#[derive(Clone, Copy)]
pub struct PerfModel {
    pub slope: f64,
    pub delay: f64,
    pub jitter: f64,
}

// A peer is silent, or heard with its model and its unreliability.
// Kept as it is: a rule of the project names this form: the heard case carries slope, delay, jitter and unreliability.
#[derive(Clone, Copy)]
pub enum Peer {
    Silent,
    Heard {
        slope: f64,
        delay: f64,
        jitter: f64,
        unreliability: f64,
    },
}

// What a plan knows of a replica: the peer, and the bytes in flight to it.
#[derive(Clone, Copy)]
pub struct PeerRecord {
    pub peer: Peer,
    pub inflight: u64,
}

// The response time that a model gives for x bytes.
pub fn predict(model: PerfModel, x: u64) -> f64
    ensures { result ≡ predict_of model x }
{
    let size_mb = std::num::nearest_u64_to_f64(x) / 1048576.0;
    model.slope * size_mb + model.delay + model.jitter
}

// When the peer replies to x bytes; infinity is silence.
pub fn reply_time(peer: Peer, x: u64, penalty: f64) -> f64
    ensures { result ≡ reply_time peer x penalty }
{
    match peer {
        Peer::Silent => f64::INFINITY,
        Peer::Heard {
            slope,
            delay,
            jitter,
            unreliability,
        } => settled(
            predict(
                PerfModel {
                    slope,
                    delay,
                    jitter,
                },
                x,
            ) + unreliability * penalty,
        ),
    }
}

// A time that is not finite counts as silence.
fn settled(t: f64) -> f64
    ensures { result ≡ settled t }
{
    if floats::is_finite(t) {
        t
    } else {
        f64::INFINITY
    }
}

// When a replica with k shards replies; our own time is +0, its record unread. A part: the numbers have been tested.
fn time_at(own: bool, told: PeerRecord, k: usize, len: u64, penalty: f64) -> f64
    requires { (own ≡ false → InBounds told) × (k ≤ most_shards) × (len ≤ 2 ^ 30) }
    ensures { result ≡ time_at own told k len penalty }
{
    if own {
        return 0.0;
    }
    let peer = told.peer;
    reply_time(peer, told.inflight + (k as u64) * len, penalty)
}

// The length of a shard. A part: there is a data shard.
// Kept as it is: as in steps, adaptive and assignment, a type of the sizes up to 2^30 is no plainer: each use takes the number out again.
pub fn shard_length(size: u64, d: usize) -> u64
    requires { (0 < d) × (d ≤ most_shards) × (size ≤ 2 ^ 30) }
    ensures { result ≡ shard_length size d }
{
    let len = (size + (d as u64) - 1) / (d as u64);
    if len == 0 { 1 } else { len }
}

// The times of the replicas at the loads 0 to d, one replica after another. A part: the numbers have been tested, and the table has room
// for n replicas.
pub fn fill_times(
    n: usize,
    own: ReplicaId,
    d: usize,
    len: u64,
    records: [PeerRecord; 16],
    penalty: f64,
    times: &mut [f64],
)
    requires d_le_most_shards { (d ≤ most_shards) × (len ≤ 2 ^ 30) × (n ≤ 16) × (length times.old ≡ n * suc d) }
    requires peers_in_bounds { PeersInBounds n own.0 records }
    ensures { times.new ≡ times_of n own.0 d len records penalty }
{
    for p in 0..n {
        for k in 0..d + 1 {
            times[p * (d + 1) + k] = time_at(p == own.0, records[p], k, len, penalty);
        }
    }
}

// The time of the replica p with k shards in a table of the loads 0 to d; never, where it has none. A part: the numbers have been tested.
// Kept as it is: as in time_at and fill_times, a type of the numbers up to most_shards is no plainer: each use takes the number out again.
#[inline]
pub fn time_in(d: usize, times: &[f64], p: ReplicaId, k: usize) -> f64
    requires { (d ≤ most_shards) × (k ≤ most_shards) × (length times.now ≤ most_times) }
    ensures { result ≡ time_in d times.now p.0 k }
{
    if times.len() <= p.0 {
        return f64::INFINITY;
    }
    let i = p.0 * (d + 1) + k;
    if times.len() <= i {
        return f64::INFINITY;
    }
    times[i]
}
