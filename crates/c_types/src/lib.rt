// The structs that cross the C interface, and how the values of the entries become them (`From`). A flag is a number: 0 is false, anything
// else true.
#![tactic(auto)]

ghost use Rattle.std.specs.Prelude.{◌≡◌, ℕ, ◌<◌, cond};
ghost use Rattle.refusals.specs.Refused.{number_of};
ghost use Rattle.profile_text.specs.ProfileText.{nothing};
ghost use Rattle.tally.specs.Tally.{nothing as no_tally};
ghost use Rattle.c_types.specs.CTypes.{word_of, is_set, to_total, unplanned_of, initial_of, tally_left, to_tally, to_profile};
ghost use Rattle.c_types.specs.Tables.{peer_at, from_peers, is_records};

use adaptive::Policy;
use bitmap::ReplicaId;
use layout::{TotalShards, Trial};
use refusals::Refusal;
use tally::{Proposal, Status};
use times::{Peer, PeerRecord};

// The number that refuses, or 0; beside a number every other field is 0. The same holds of each struct below that has a refusal.
// Kept as it is: the C interface has no Option and no Result, but a number beside the value, here and in each struct with a refusal.
#[repr(C)]
#[derive(Clone, Copy)]
pub struct Answer {
    pub refusal: u64,
    pub value: u64,
}

#[repr(C)]
#[derive(Clone, Copy)]
pub struct FloatAnswer {
    pub refusal: u64,
    pub value: f64,
}

#[repr(C)]
#[derive(Clone, Copy)]
pub struct Layout {
    pub refusal: u64,
    pub width: usize,
    pub commits: u64,
}

#[repr(C)]
#[derive(Clone, Copy)]
pub struct Plan {
    pub refusal: u64,
    pub found: u64,
    pub width: usize,
    pub time: f64,
}

#[repr(C)]
#[derive(Clone, Copy)]
pub struct Choice {
    pub refusal: u64,
    pub from_table: u64,
    pub count: usize,
}

// Kept as it is: the C interface needs a number for the flag and fixed memory with the counts beside it; `profiles::Profile` has a bool.
#[repr(C)]
#[derive(Clone, Copy)]
pub struct Profile {
    pub domain_count: usize,
    pub prob_count: usize,
    pub runtime: u64,
    pub threshold: f64,
    pub probs: [f64; 16],
    pub domains: [u64; 64],
}

#[repr(C)]
#[derive(Clone, Copy)]
pub struct ProfileReading {
    pub refusal: u64,
    pub profile: Profile,
}

// Kept as it is: the C interface needs a number for the flag, and has the proposal's three words one by one.
#[repr(C)]
#[derive(Clone, Copy)]
pub struct Tally {
    pub population: usize,
    pub quorum: usize,
    pub data_shards: usize,
    pub width: usize,
    pub ballot: u64,
    pub value_high: u64,
    pub value_low: u64,
    pub heard: u64,
    pub committed: u64,
    pub rows: [u64; 64],
}

#[repr(C)]
#[derive(Clone, Copy)]
pub struct TallyOpening {
    pub refusal: u64,
    pub tally: Tally,
}

// The status is 0 for waiting, 1 for committed and 2 for already committed.
#[repr(C)]
#[derive(Clone, Copy)]
pub struct Reply {
    pub refusal: u64,
    pub status: u64,
}

// Whether a flag is set.
pub fn is_set(flag: u64) -> bool
    ensures { result ≡ is_set flag }
{
    flag != 0
}

// A width that is exact, or the most.
pub fn total(ceiling: u64, width: usize) -> TotalShards
    ensures { result ≡ to_total ceiling width }
{
    if is_set(ceiling) {
        return TotalShards::AtMost(width);
    }
    TotalShards::Exactly(width)
}

// ---- answers

// What the value of an answer is as a word.
pub trait Word {
    ghost word: { Self → ℕ };

    fn word(self) -> u64
        ensures { result ≡ word self };
}

impl Word for u64 {
    ghost word = { λ k. k };

    fn word(self) -> u64 {
        self
    }
}

impl Word for usize {
    ghost word = { λ k. k };

    fn word(self) -> u64 {
        self as u64
    }
}

impl Word for bool {
    ghost word = { word_of };

    fn word(self) -> u64 {
        u64::from(self)
    }
}

// The answer is in lent memory.
impl Word for () {
    ghost word = { λ _. 0 };

    fn word(self) -> u64 {
        0
    }
}

impl<T: Word> From<Result<T, Refusal>> for Answer {
    ghost use Rattle.refusals.specs.Refused.{outcome_by};
    ghost use Rattle.c_types.specs.CTypes.{to_answer};

    ghost from_gives = { λ r a. a ≡ to_answer (outcome_by T.word r) };

    fn from(r: Result<T, Refusal>) -> Answer {
        match r {
            Ok(value) => Answer {
                refusal: 0,
                value: value.word(),
            },
            Err(refusal) => Answer {
                refusal: number(refusal),
                value: 0,
            },
        }
    }
}

fn number(refusal: Refusal) -> u64
    ensures { result ≡ number_of refusal }
{
    u64::from(refusal.number())
}

impl From<Result<f64, Refusal>> for FloatAnswer {
    ghost use Rattle.refusals.specs.Refused.{outcome_of};
    ghost use Rattle.c_types.specs.CTypes.{to_float};

    ghost from_gives = { λ r a. a ≡ to_float (outcome_of r) };

    fn from(r: Result<f64, Refusal>) -> FloatAnswer {
        match r {
            Ok(value) => FloatAnswer { refusal: 0, value },
            Err(refusal) => FloatAnswer {
                refusal: number(refusal),
                value: 0.0,
            },
        }
    }
}

impl From<Result<Trial, Refusal>> for Layout {
    ghost use Rattle.refusals.specs.Refused.{outcome_by};
    ghost use Rattle.layout.specs.Layout.{tested};
    ghost use Rattle.c_types.specs.CTypes.{to_layout};

    ghost from_gives = { λ r a. a ≡ to_layout (outcome_by tested r) };

    fn from(r: Result<Trial, Refusal>) -> Layout {
        match r {
            Ok(trial) => Layout {
                refusal: 0,
                width: trial.width,
                commits: trial.commits.word(),
            },
            Err(refusal) => Layout {
                refusal: number(refusal),
                width: 0,
                commits: 0,
            },
        }
    }
}

// A plan's rows are in the lent table.
impl From<Result<Option<assignment::Plan>, Refusal>> for Plan {
    ghost use Rattle.std.specs.Prelude.{List};
    ghost use Rattle.refusals.specs.Refused.{outcome_by};
    ghost use Rattle.assignment.specs.Plans.{picked};
    ghost use Rattle.c_types.specs.CTypes.{to_plan};

    ghost from_gives = { λ r a. (rows : List ℕ) → a ≡ to_plan (outcome_by (picked rows) r) };

    fn from(r: Result<Option<assignment::Plan>, Refusal>) -> Plan {
        match r {
            Ok(Some(plan)) => Plan {
                refusal: 0,
                found: 1,
                width: plan.width,
                time: plan.time,
            },
            Ok(None) => unplanned(0),
            Err(refusal) => unplanned(number(refusal)),
        }
    }
}

// No plan: refused, or with 0 none.
fn unplanned(refusal: u64) -> Plan
    ensures { result ≡ unplanned_of refusal }
{
    Plan {
        refusal,
        found: 0,
        width: 0,
        time: 0.0,
    }
}

impl From<Result<Policy, Refusal>> for Choice {
    ghost use Rattle.refusals.specs.Refused.{outcome_by};
    ghost use Rattle.adaptive.specs.Policy.{chosen};
    ghost use Rattle.c_types.specs.CTypes.{to_choice};

    ghost from_gives = { λ r a. a ≡ to_choice (outcome_by chosen r) };

    fn from(r: Result<Policy, Refusal>) -> Choice {
        match r {
            Ok(Policy::Balanced(count)) => Choice {
                refusal: 0,
                from_table: 1,
                count,
            },
            Ok(Policy::Initial) => initial(0),
            Err(refusal) => initial(number(refusal)),
        }
    }
}

// Not from the table: refused, or with 0 the initial layout.
fn initial(refusal: u64) -> Choice
    ensures { result ≡ initial_of refusal }
{
    Choice {
        refusal,
        from_table: 0,
        count: 0,
    }
}

impl From<Result<Status, Refusal>> for Reply {
    ghost use Rattle.refusals.specs.Refused.{outcome_of};
    ghost use Rattle.c_types.specs.CTypes.{to_reply};

    ghost from_gives = { λ r a. a ≡ to_reply (outcome_of r) };

    fn from(r: Result<Status, Refusal>) -> Reply {
        match r {
            Ok(Status::Waiting) => Reply {
                refusal: 0,
                status: 0,
            },
            Ok(Status::Committed) => Reply {
                refusal: 0,
                status: 1,
            },
            Ok(Status::AlreadyCommitted) => Reply {
                refusal: 0,
                status: 2,
            },
            Err(refusal) => Reply {
                refusal: number(refusal),
                status: 0,
            },
        }
    }
}

// ---- profiles

impl From<Profile> for profiles::Profile {
    ghost use Rattle.c_types.specs.CTypes.{from_profile};

    ghost from_gives = { λ p q. q ≡ from_profile p };

    #[tactic(auto, unfolding(crate::specs::CTypes::from_profile))]
    fn from(p: Profile) -> profiles::Profile {
        let probs = p.probs;
        let domains = p.domains;
        profiles::Profile {
            domain_count: p.domain_count,
            prob_count: p.prob_count,
            runtime: is_set(p.runtime),
            threshold: p.threshold,
            probs,
            domains,
        }
    }
}

impl From<profiles::Profile> for Profile {
    ghost use Rattle.c_types.specs.CTypes.{to_profile};

    ghost from_gives = { λ p q. q ≡ to_profile p };

    #[tactic(auto, unfolding(crate::specs::CTypes::to_profile))]
    fn from(p: profiles::Profile) -> Profile {
        let probs = p.probs;
        let domains = p.domains;
        Profile {
            domain_count: p.domain_count,
            prob_count: p.prob_count,
            runtime: p.runtime.word(),
            threshold: p.threshold,
            probs,
            domains,
        }
    }
}

impl From<Result<profiles::Profile, Refusal>> for ProfileReading {
    ghost use Rattle.refusals.specs.Refused.{outcome_of};
    ghost use Rattle.c_types.specs.CTypes.{to_reading};

    ghost from_gives = { λ r a. a ≡ to_reading (outcome_of r) };

    #[tactic(auto, unfolding(crate::specs::CTypes::to_reading))]
    fn from(r: Result<profiles::Profile, Refusal>) -> ProfileReading {
        match r {
            Ok(p) => ProfileReading {
                refusal: 0,
                profile: p.into(),
            },
            Err(refusal) => ProfileReading {
                refusal: number(refusal),
                profile: no_profile(),
            },
        }
    }
}

// The all-zero profile, which is beside a refusal.
#[tactic(auto, unfolding(crate::specs::CTypes::to_profile, profile_text::specs::ProfileText::nothing))]
fn no_profile() -> Profile
    ensures { result ≡ to_profile nothing }
{
    Profile {
        domain_count: 0,
        prob_count: 0,
        runtime: 0,
        threshold: 0.0,
        probs: [0.0; 16],
        domains: [0; 64],
    }
}

// ---- tallies

impl From<Tally> for tally::Tally {
    ghost use Rattle.c_types.specs.CTypes.{from_tally};

    ghost from_gives = { λ t u. u ≡ from_tally t };

    #[tactic(auto, unfolding(crate::specs::CTypes::from_tally))]
    fn from(t: Tally) -> tally::Tally {
        let rows = t.rows;
        tally::Tally {
            population: t.population,
            quorum: t.quorum,
            data_shards: t.data_shards,
            width: t.width,
            proposal: Proposal {
                ballot: t.ballot,
                value_high: t.value_high,
                value_low: t.value_low,
            },
            heard: t.heard,
            committed: is_set(t.committed),
            rows,
        }
    }
}

// A tally with the word of its flag.
// Kept as it is: From is no plainer, since it takes one value, and the word comes from the caller's tally.
#[tactic(auto, unfolding(crate::specs::CTypes::to_tally))]
fn to_tally(t: tally::Tally, committed: u64) -> Tally
    ensures { result ≡ to_tally t committed }
{
    let rows = t.rows;
    Tally {
        population: t.population,
        quorum: t.quorum,
        data_shards: t.data_shards,
        width: t.width,
        ballot: t.proposal.ballot,
        value_high: t.proposal.value_high,
        value_low: t.proposal.value_low,
        heard: t.heard,
        committed,
        rows,
    }
}

// The tally t as a reply leaves it. A flag that was set stays as it was.
#[tactic(auto, unfolding(crate::specs::CTypes::tally_left))]
pub fn tally_left(t: Tally, u: tally::Tally) -> Tally
    ensures { result ≡ tally_left t u }
{
    to_tally(u, flag_left(t.committed, u.committed))
}

// A flag that was set stays the number that it was.
fn flag_left(before: u64, committed: bool) -> u64
    ensures { result ≡ cond (is_set before) before (word_of committed) }
{
    if is_set(before) {
        return before;
    }
    committed.word()
}

impl From<Result<tally::Tally, Refusal>> for TallyOpening {
    ghost use Rattle.refusals.specs.Refused.{outcome_of};
    ghost use Rattle.c_types.specs.CTypes.{to_opening};

    ghost from_gives = { λ r a. a ≡ to_opening (outcome_of r) };

    #[tactic(auto, unfolding(crate::specs::CTypes::to_opening))]
    fn from(r: Result<tally::Tally, Refusal>) -> TallyOpening {
        match r {
            Ok(t) => TallyOpening {
                refusal: 0,
                tally: to_tally(t, t.committed.word()),
            },
            Err(refusal) => TallyOpening {
                refusal: number(refusal),
                tally: no_tally(),
            },
        }
    }
}

// The all-zero tally, which is beside a refusal.
#[tactic(auto, unfolding(crate::specs::CTypes::to_tally, tally::specs::Tally::fresh))]
fn no_tally() -> Tally
    ensures { result ≡ to_tally no_tally 0 }
{
    Tally {
        population: 0,
        quorum: 0,
        data_shards: 0,
        width: 0,
        ballot: 0,
        value_high: 0,
        value_low: 0,
        heard: 0,
        committed: 0,
        rows: [0; 64],
    }
}

// ---- tables by replica: what a table lacks is 0, and replicas past it are silent or unread

// Whether a table of that many words has so many for each of n replicas. A part: that is at least one.
pub fn is_records(len: usize, each: usize, n: usize) -> bool
    requires { 0 < each }
    ensures { result ≡ is_records len each n }
{
    if len % each != 0 {
        return false;
    }
    len / each == n
}

fn peer_at(heard: u64, models: &[f64], inflight: &[u64], p: usize) -> PeerRecord
    requires { p < 16 }
    ensures { result ≡ peer_at heard models.now inflight.now p }
{
    let inflight = bitmap::word_at(inflight, p);
    if !bitmap::has_replica(heard, ReplicaId(p)) {
        return PeerRecord {
            peer: Peer::Silent,
            inflight,
        };
    }
    let float = |k: usize| models.get(k).copied().unwrap_or(0.0);
    PeerRecord {
        peer: Peer::Heard {
            slope: float(p * 4),
            delay: float(p * 4 + 1),
            jitter: float(p * 4 + 2),
            unreliability: float(p * 4 + 3),
        },
        inflight,
    }
}

// The records of a plan: four floats a replica, and whether it is heard.
// Kept as it is: the C interface lends the tables side by side, so that From has no one value to take.
#[tactic(auto, unfolding(crate::specs::Tables::from_peers))]
pub fn from_peers(heard: u64, models: &[f64], inflight: &[u64]) -> [PeerRecord; 16]
    ensures { result ≡ from_peers heard models.now inflight.now }
{
    std::array::from_fn(|p| peer_at(heard, models, inflight, p))
}
