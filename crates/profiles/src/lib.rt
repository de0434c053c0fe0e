// ReliabilityProfile: what is known of how the replicas fail, its check, and the unreliability of a peer.
#![tactic(auto)]

ghost use Rattle.std.specs.Prelude.{◌≡◌, ◌<◌, ◌≤◌, length};
ghost use Rattle.std.specs.List.{list_all};
ghost use Rattle.refusals.specs.First.{first_of};
ghost use Rattle.refusals.specs.Refused.{refusal_of, outcome_of};
ghost use Rattle.floats.specs.Floats.{is_probability};
ghost use Rattle.profiles.specs.Profile.{has_probs, probs_of, domains_of, is_threshold, domains_fit, probs_fit, profile_cases};
ghost use Rattle.profiles.specs.Unreliability.{given, chance_of, unreliability_refusal, unreliability_of};

use bitmap::ReplicaId;
use refusals::{Refusal, unless};

// A parsed profile. A domain is a mask of replicas; with prob_count 0 there are no probabilities.
// Kept as it is: rules of the project: no heap, fixed memory, and this form by name (a struct by value of arrays, threshold, flag, masks).
#[derive(Clone, Copy)]
pub struct Profile {
    pub domain_count: usize,
    pub prob_count: usize,
    pub runtime: bool,
    pub threshold: f64,
    pub probs: [f64; 16],
    pub domains: [u64; 64],
}

impl Profile {
    // Whether it has probabilities.
    #[inline]
    pub fn has_probs(&self) -> bool
        ensures { result ≡ has_probs self.now }
    {
        self.prob_count != 0
    }

    // The probabilities of n replicas, at most the 16 that it has.
    #[inline]
    pub fn probs_of(&self, n: usize) -> &[f64]
        ensures probs { result.now ≡ probs_of n self.now }
        ensures each_replica { n ≤ 16 → length result.now ≡ n }
    {
        &self.probs[..n.min(16)]
    }

    // The domains that it counts, at most the words that it has.
    #[inline]
    pub fn counted_domains(&self) -> &[u64]
        ensures { result.now ≡ domains_of self.now }
    {
        &self.domains[..self.domain_count.min(64)]
    }

    // Whether each domain that is counted has members below n alone.
    #[tactic(auto, unfolding(crate::specs::Profile::domains_fit))]
    fn domains_fit(&self, n: usize) -> bool
        ensures { result ≡ domains_fit n self.now }
    {
        refusals::are_masks(n, self.counted_domains())
    }

    // Whether there are a probability for each of n replicas and a threshold, if there are probabilities.
    #[tactic(auto, unfolding(crate::specs::Profile::probs_fit))]
    pub fn probs_fit(&self, n: usize) -> bool
        ensures { result ≡ probs_fit n self.now }
    {
        !self.has_probs()
            || self.prob_count == n
                && all_probabilities(self.probs_of(n))
                && is_threshold(self.threshold)
    }

    fn given(&self, peer: ReplicaId) -> f64
        requires { peer.0 < 16 }
        ensures { result ≡ given self.now peer.0 }
    {
        if self.has_probs() {
            self.probs[peer.0]
        } else {
            0.0
        }
    }

    // The probability that the profile gives the peer, or 0, and under `runtime` the larger of that and the downtime. A part: the peer's
    // number has been tested.
    fn chance(&self, peer: ReplicaId, down: f64) -> f64
        requires { peer.0 < 16 }
        ensures { result ≡ chance_of self.now peer.0 down }
    {
        let x = self.given(peer);
        if self.runtime {
            floats::larger_of(x, down)
        } else {
            x
        }
    }
}

// How likely the peer seems to fail in the middle of an instance, given the fraction of recent time that it was observed down.
#[tactic(auto, unfolding(crate::specs::Unreliability::unreliability_of))]
pub fn unreliability(n: usize, peer: ReplicaId, p: Profile, down: f64) -> Result<f64, Refusal>
    ensures { outcome_of result ≡ unreliability_of n peer.0 p down }
{
    check_unreliability(n, peer, &p)?;
    Ok(p.chance(peer, down))
}

// Refuses what is no profile of n replicas.
#[tactic(auto, unfolding(crate::specs::Profile::domains_counted))]
pub fn check_profile(n: usize, p: &Profile) -> Result<(), Refusal>
    ensures { refusal_of result ≡ first_of (profile_cases n p.now) }
{
    unless(p.domains_fit(n), Refusal::Member)?;
    unless(p.probs_fit(n), Refusal::Probabilities)?;
    unless(p.domain_count <= 64, Refusal::Domains)
}

#[tactic(auto, unfolding(crate::specs::Unreliability::unreliability_refusal))]
fn check_unreliability(n: usize, peer: ReplicaId, p: &Profile) -> Result<(), Refusal>
    ensures { refusal_of result ≡ unreliability_refusal n peer.0 p.now }
{
    unless(refusals::is_population(n), Refusal::Population)?;
    unless(refusals::is_replica(n, peer), Refusal::Replica)?;
    check_profile(n, p)
}

fn all_probabilities(ps: &[f64]) -> bool
    ensures { result ≡ list_all is_probability ps.now }
{
    ps.iter().all(|p| floats::is_probability(*p))
}

// Whether t is above 0 and at most 1. A NaN is not.
#[tactic(auto, unfolding(crate::specs::Profile::is_threshold))]
fn is_threshold(t: f64) -> bool
    ensures { result ≡ is_threshold t }
{
    0.0 < t && t <= 1.0
}
