// What is searched for a plan: the table of times, and the rule that its layouts are tested by.

ghost use Rattle.std.specs.Prelude.{◌≡◌, suc, ◌*◌, length};

use layout::CommitRule;
use times::TimeTable;

// A commit rule, and the times of the same population under the same data shards.
#[derive(Clone, Copy)]
pub struct Search<'f, 't> {
    pub rule: CommitRule<'f>,
    pub times: TimeTable<'t>,
    pub ghost one_population: { times.population ≡ rule.population },
    pub ghost one_cut: { times.data_shards ≡ rule.data_shards },
    pub ghost whole: { length times.times.now ≡ times.population * suc times.data_shards },
}

impl Search<'_, '_> {
    ghost use Rattle.std.specs.Prelude.{◌&&◌, cond};
    ghost use Rattle.lists.specs.First.{better_by};
    ghost use Rattle.floats.specs.Floats.{is_finite, total_le};
    ghost use Rattle.candidates.specs.Searched.{search_commits, search_time};

    // The first candidate in total order that commits. One pass serves: a candidate is tested only if it is before the best so far and is
    // no repeat.
    pub fn first_time(&self) -> Option<f64>
        ensures { result ≡ search_time self.now }
    {
        let times = self.times.times;
        let mut best = None;
        for (i, x) in times.iter().enumerate() {
            if !crate::is_repeat(self.times.data_shards, times, i) {
                best = self.consider(best, *x);
            }
        }
        best
    }

    // The better of what was found and x, if x is a candidate that commits.
    fn consider(&self, best: Option<f64>, x: f64) -> Option<f64>
        ensures { result ≡ cond (is_finite x && search_commits self.now x) (better_by total_le best x) best }
    {
        if !floats::is_finite(x) {
            return best;
        }
        if !floats::precedes(x, best) {
            return best;
        }
        if self.commits_at(x) {
            return Some(x);
        }
        best
    }

    // Whether the layout of the loads at a time commits.
    fn commits_at(&self, t: f64) -> bool
        ensures { result ≡ search_commits self.now t }
    {
        let mut loads = [0usize; 16];
        let loads = &mut loads[..self.rule.population];
        let answered = crate::loads_at(&self.times, t, loads);
        self.rule.commits(answered, loads)
    }
}
