// The search for the first candidate time at which a layout commits, and the loads of a time.
#![tactic(auto)]

ghost use Rattle.std.specs.Prelude.{◌≡◌, true, ℕ, suc, ◌+◌, ◌*◌, ◌<◌, ◌≤◌, length, get_or};
ghost use Rattle.std.specs.Float.Ieee.{le};
ghost use Rattle.lists.specs.Below.{run_of};
ghost use Rattle.refusals.specs.Limits.{most_shards};
ghost use Rattle.times.specs.Times.{never};
ghost use Rattle.candidates.specs.Search.{run_at, answered_at, loads_at};
ghost use Rattle.candidates.specs.Repeats.{repeats_at, is_repeat, IsKnown};

use bitmap::ReplicaId;
use times::TimeTable;

mod search;

pub use search::Search;

// Whether the time is also one place before, or at the same load one or two replicas before. Our own times are all equal, and so are
// those of equal peers.
fn is_repeat(d: usize, times: &[f64], i: usize) -> bool
    requires { (d ≤ most_shards) × (i < length times.now) }
    ensures repeat { result ≡ is_repeat d times.now i }
    ensures known { result ≡ true → IsKnown times.now i }
{
    repeats(times, 1, i) || repeats(times, d + 1, i) || repeats(times, 2 * (d + 1), i)
}

// Whether the time so many places before is the same.
fn repeats(times: &[f64], back: usize, i: usize) -> bool
    requires { (0 < back) × (i < length times.now) }
    ensures repeat { result ≡ repeats_at times.now back i }
    ensures known { result ≡ true → IsKnown times.now i }
{
    if i < back {
        return false;
    }
    floats::same(times[i - back], times[i])
}

// The most shards that each replica can persist by a time, and the mask of those that answer by then. A part: there is a load for each
// replica, and the table is that of the population.
pub fn loads_at(times: &TimeTable, t: f64, loads: &mut [usize]) -> u64
    requires { (length loads.old ≡ times.now.population) × (length times.now.times.now ≡ times.now.population * suc times.now.data_shards) }
    ensures mask { result ≡ answered_at times.now.own.0 times.now.data_shards times.now.times.now t times.now.population }
    ensures loads { loads.new ≡ loads_at times.now.own.0 times.now.data_shards times.now.times.now t times.now.population }
{
    let mut answered = 0;
    for (p, load) in loads.iter_mut().enumerate() {
        let run = run_at(times, t, ReplicaId(p));
        if run == 0 {
            *load = 0;
        } else {
            *load = run - 1;
            answered = bitmap::with_replica(answered, ReplicaId(p));
        }
    }
    answered
}

// How many loads of the replica p, from 0 on in an unbroken run, are in time. A part: it is one of the population.
fn run_at(times: &TimeTable, t: f64, p: ReplicaId) -> usize
    requires { (p.0 < times.now.population) × (length times.now.times.now ≡ times.now.population * suc times.now.data_shards) }
    ensures { result ≡ run_at times.now.own.0 times.now.data_shards times.now.times.now t p.0 }
{
    if p == times.own {
        return times.data_shards + 1;
    }
    run_from(
        times.data_shards,
        times.times,
        p.0 * (times.data_shards + 1),
        t,
    )
}

// How many times from a place on, in an unbroken run of at most d + 1, are at most t.
fn run_from(d: usize, times: &[f64], from: usize, t: f64) -> usize
    requires { (d ≤ most_shards) × (from + d < length times.now) }
    ensures { result ≡ run_of (λ (k : ℕ). le (get_or times.now (from + k) never) t) (suc d) }
{
    times[from..][..d + 1]
        .iter()
        .position(|x| !(*x <= t))
        .unwrap_or(d + 1)
}
