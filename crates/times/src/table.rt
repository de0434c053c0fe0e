// The table of the times of a plan.

ghost use Rattle.std.specs.Prelude.{◌≡◌, ◌≤◌, length};
ghost use Rattle.refusals.specs.Limits.{most_shards};
ghost use Rattle.times.specs.Times.{most_times, time_in};

use bitmap::ReplicaId;

// The times of each of n replicas at the loads 0 to d, one replica after another, and which replica is ours.
#[derive(Clone, Copy)]
pub struct TimeTable<'a> {
    pub population: usize,
    pub own: ReplicaId,
    pub data_shards: usize,
    pub times: &'a [f64],
    pub ghost small: { population ≤ 16 },
    pub ghost loads: { data_shards ≤ most_shards },
    pub ghost few: { length times.now ≤ most_times },
}

impl TimeTable<'_> {
    // The time of the replica p with k shards; never, where it has none.
    pub fn time_in(&self, p: ReplicaId, k: usize) -> f64
        requires { k ≤ most_shards }
        ensures { result ≡ time_in self.now.data_shards self.now.times.now p.0 k }
    {
        crate::time_in(self.data_shards, self.times, p, k)
    }
}
