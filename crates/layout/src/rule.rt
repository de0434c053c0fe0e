// The commit rule that a plan's layouts are tested by.

ghost use Rattle.std.specs.Prelude.{◌≡◌, ◌≤◌, length};
ghost use Rattle.layout.specs.Layout.{Fit, bound};

use crate::TotalShards;

// What a layout has to pass, and how it is laid out: replies from at least a quorum of the population, and d different shards without any
// one listed fault set.
#[derive(Clone, Copy)]
pub struct CommitRule<'a> {
    pub population: usize,
    pub quorum: usize,
    pub data_shards: usize,
    pub total: TotalShards,
    pub faults: &'a [u64],
    pub ghost small: { population ≤ 16 },
    pub ghost fits: { Fit data_shards (bound total) },
}

impl CommitRule<'_> {
    ghost use Rattle.layout.specs.Rule.{rule_commits};

    // Whether the layout of the loads commits, where those of the mask answer.
    // Kept as it is: a type of a load for each replica is no plainer: its population would have to be equated with the rule's.
    pub fn commits(&self, answered: u64, loads: &[usize]) -> bool
        requires { length loads.now ≡ self.now.population }
        ensures { result ≡ rule_commits self.now answered loads.now }
    {
        let mut rows = [0u64; 64];
        let rows = &mut rows[..self.population * 4];
        self.trial(answered, loads, rows).commits
    }
}
