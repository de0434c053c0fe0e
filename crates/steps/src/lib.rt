// The steps of an adaptive choice: each has more shards a replica, waits for fewer replicas, and takes a time that the peers' models
// predict.
#![tactic(auto)]

ghost use Rattle.std.specs.Prelude.{◌≡◌, ◌+◌, ◌*◌, ◌/◌, ◌%◌, ◌≤◌, ◌<◌, ◌^◌, length};
ghost use Rattle.refusals.specs.LimitLaws.{InFlight};
ghost use Rattle.refusals.specs.Limits.{most_shards};
ghost use Rattle.times.specs.Times.{model_in, models_in};
ghost use Rattle.steps.specs.Steps.{in_flight, peer_at, peer_times, step_time, best_step};

use bitmap::ReplicaId;
use times::PerfModel;

// A scheme whose numbers have been tested: how many replicas there are and how many of them may fail, the data shards, and the majority.
#[derive(Clone, Copy)]
pub struct Scheme {
    pub population: usize,
    pub tolerance: usize,
    pub data_shards: usize,
    pub majority: usize,
    pub ghost some_replicas: { 0 < population },
    pub ghost few_replicas: { population ≤ 16 },
    pub ghost fewer_fail: { tolerance < population },
    pub ghost some_shards: { 0 < data_shards },
    pub ghost few_shards: { data_shards ≤ most_shards },
    pub ghost some_majority: { 0 < majority },
    pub ghost majority_inside: { majority ≤ population },
    pub ghost whole_shares: { data_shards % majority ≡ 0 },
}

impl Scheme {
    // The shards of a share: in each step a replica has one share more than in the step before.
    #[inline]
    pub fn share(self) -> usize
        ensures { result ≡ self.data_shards / self.majority }
    {
        self.data_shards / self.majority
    }
}

// What is known of the replicas, of which one is our own: the bytes in flight to each, and three numbers of each's model, slope in ms a
// MiB, delay and jitter in ms.
// Kept as it is: the entries refuse tables of wrong lengths in a fixed order, so the two tables are taken as they are lent.
#[derive(Clone, Copy)]
pub struct Peers<'a> {
    pub own: ReplicaId,
    pub inflight: &'a [u64],
    pub models: &'a [f64],
    pub ghost some_replicas: { 0 < length inflight.now },
    pub ghost few_replicas: { length inflight.now ≤ 16 },
    pub ghost a_model_each: { length models.now ≡ length inflight.now * 3 },
    pub ghost in_flight_fits: { InFlight (length inflight.now) own.0 (in_flight inflight.now) },
}

impl Peers<'_> {
    // When the fastest quorum - 1 peers have the load; at once if there are none to hear from.
    fn step_time(&self, quorum: usize, load: u64) -> f64
        requires { load ≤ 2 ^ 40 }
        ensures { result ≡ step_time (length self.now.inflight.now) self.now.own.0 quorum load self.now.inflight.now (models_in self.now.models.now) }
    {
        if quorum < 2 {
            return 0.0;
        }
        let mut table = [0.0; 16];
        let times = &mut table[..self.inflight.len() - 1];
        self.fill_times(load, times);
        floats::sort(times);
        times.get(quorum - 2).copied().unwrap_or(f64::INFINITY)
    }

    // The times of the peers, in rising order of their numbers. A part: there is a place for each.
    fn fill_times(&self, load: u64, times: &mut [f64])
        requires small_load { load ≤ 2 ^ 40 }
        requires a_place_each { length times.old + 1 ≡ length self.now.inflight.now }
        ensures { times.new ≡ peer_times (length times.old) self.now.own.0 load self.now.inflight.now (models_in self.now.models.now) }
    {
        for (j, time) in times.iter_mut().enumerate() {
            let p = peer_at(self.own, j).0;
            *time = times::predict(self.model(p), self.inflight[p] + load);
        }
    }

    // The model of p. A part: p is one of the replicas.
    fn model(&self, p: usize) -> PerfModel
        requires { p < length self.now.inflight.now }
        ensures { result ≡ model_in self.now.models.now p }
    {
        PerfModel {
            slope: self.models[p * 3],
            delay: self.models[p * 3 + 1],
            jitter: self.models[p * 3 + 2],
        }
    }
}

// The first step with the least time in total order. A part: the size has been tested, and the peers are those of the scheme.
pub fn best_step(scheme: Scheme, peers: &Peers, size: u64) -> usize
    requires a_word_each { length peers.now.inflight.now ≡ scheme.population }
    requires small_size { size ≤ 2 ^ 30 }
    ensures least { result ≡ best_step scheme.population scheme.tolerance peers.now.own.0 scheme.data_shards scheme.majority size peers.now.inflight.now (models_in peers.now.models.now) }
    ensures inside { result < scheme.majority }
{
    // A share is a whole number of shards: there are as many steps as replicas in the majority.
    let load = (size / (scheme.data_shards as u64) + 1) * (scheme.share() as u64);
    let mut best = 0;
    let mut least = None;
    for i in 0..scheme.majority {
        // The quorum waited for is one smaller from step to step, and each replica has one share more.
        let quorum = scheme.majority + scheme.tolerance - i;
        let time = peers.step_time(quorum, load * (i as u64 + 1));
        if floats::precedes(time, least) {
            best = i;
            least = Some(time);
        }
    }
    best
}

// The j-th of the peers.
fn peer_at(own: ReplicaId, j: usize) -> ReplicaId
    requires { j < 16 }
    ensures { result.0 ≡ peer_at own.0 j }
{
    if j < own.0 {
        ReplicaId(j)
    } else {
        ReplicaId(j + 1)
    }
}
