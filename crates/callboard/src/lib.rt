// The C interface (include/callboard.h): a function for each entry, which takes its parameters apart, calls the entry and
// flattens the answer. Every number is 64 bits wide; a slice is a pointer and a length. Beside a refusal every other field is 0, and
// nothing is written. The crate callboard_c exports each function to C.
// Kept as it is: the C interface fixes the parameters, one by one, and lends tables side by side.
#![tactic(auto)]

ghost use Rattle.std.specs.Prelude.{◌≡◌, true, length};
ghost use Rattle.profiles.specs.Unreliability.{unreliability_of};
ghost use Rattle.profile_text.specs.ProfileText.{profile_of};
ghost use Rattle.faults.specs.FaultList.{fault_list_of, fault_words};
ghost use Rattle.coverage.specs.Coverage.{covers_of, survived_of};
ghost use Rattle.coverage.specs.Walk.{rows_united_of};
ghost use Rattle.layout.specs.Layout.{layout_rows_of, rows_written, layout_commits_of, trial_written};
ghost use Rattle.assignment.specs.Plans.{planned, full_copies_of, copies_written};
ghost use Rattle.adaptive.specs.Floor.{min_shards_of};
ghost use Rattle.adaptive.specs.Policy.{chosen, policy_for};
ghost use Rattle.layout_text.specs.LayoutText.{init_table};
ghost use Rattle.refusals.specs.Outcome.{left};
ghost use Rattle.refusals.specs.Refused.{refusal_of, outcome_of, outcome_by};
ghost use Rattle.refusals.specs.Limits.{is_table};
ghost use Rattle.rows.specs.Row.{row_of};
ghost use Rattle.gossip.specs.Gossip.{gossip_of, exclusions_left};
ghost use Rattle.tally.specs.Tally.{opening_of, told, from_reply, reply_of, tally_after};
ghost use Rattle.c_types.specs.CTypes.{to_total, to_answer, to_flag, to_done, to_float, to_layout, to_plan, to_choice, to_reply, to_reading, from_profile, from_tally, tally_left, to_opening, proposal_of};
ghost use Rattle.callboard.specs.Interface.{pick_in, policy_in, copied, rows_left};
ghost use Rattle.callboard.specs.Tests.{plan_tables, fitting_of};

use adaptive::{Policy, PolicyInput};
use bitmap::ReplicaId;
use c_types::{
    Answer, Choice, FloatAnswer, Layout, Plan, Profile, ProfileReading, Reply, Tally, TallyOpening,
};
use refusals::{Refusal, unless};
use rows::Row;
use tally::{AcceptReply, Proposal, Status};

pub fn callboard_parse_profile(n: usize, text: &[u8]) -> ProfileReading
    ensures { result ≡ to_reading (profile_of n text.now) }
{
    profile_text::parse_profile(n, text).into()
}

pub fn callboard_unreliability(n: usize, peer: usize, p: Profile, down: f64) -> FloatAnswer
    ensures { result ≡ to_float (unreliability_of n peer (from_profile p) down) }
{
    profiles::unreliability(n, ReplicaId(peer), p.into(), down).into()
}

// The value is the count of the list.
pub fn callboard_fault_list(n: usize, f: usize, p: Profile, list: &mut [u64]) -> Answer
    ensures answer { result ≡ to_answer (fault_list_of n f (from_profile p) (length list.old)) }
    ensures words { list.new ≡ fault_words n f (from_profile p) list.old }
{
    faults::fault_list(n, f, p.into(), list).into()
}

// The value is 1 if the value is covered, else 0.
pub fn callboard_covers(
    n: usize,
    d: usize,
    w: usize,
    heard: u64,
    rows: &[u64],
    faults: &[u64],
) -> Answer
    ensures { result ≡ to_flag (covers_of n d w heard rows.now faults.now) }
{
    coverage::covers(n, d, w, heard, rows, faults).into()
}

// The value is how many rows the walk unites.
pub fn callboard_rows_united(
    n: usize,
    d: usize,
    w: usize,
    heard: u64,
    rows: &[u64],
    faults: &[u64],
) -> Answer
    ensures { result ≡ to_answer (rows_united_of n d w heard rows.now faults.now) }
{
    coverage::rows_united(n, d, w, heard, rows, faults).into()
}

pub fn callboard_survived_by(n: usize, heard: u64, faults: &[u64]) -> Answer
    ensures { result ≡ to_flag (survived_of n heard faults.now) }
{
    coverage::survived_by(n, heard, faults).into()
}

// The value is the width.
pub fn callboard_layout_rows(
    n: usize,
    d: usize,
    ceiling: u64,
    width: usize,
    loads: &[usize],
    rows: &mut [u64],
) -> Answer
    ensures answer { result ≡ to_answer (layout_rows_of n d (to_total ceiling width) loads.now (length rows.old)) }
    ensures words { rows.new ≡ rows_written n d (to_total ceiling width) loads.now rows.old }
{
    layout::layout_rows(n, d, c_types::total(ceiling, width), loads, rows).into()
}

pub fn callboard_layout_commits(
    n: usize,
    quorum: usize,
    d: usize,
    ceiling: u64,
    width: usize,
    answered: u64,
    loads: &[usize],
    faults: &[u64],
    rows: &mut [u64],
) -> Layout
    ensures answer { result ≡ to_layout (layout_commits_of n quorum d (to_total ceiling width) answered loads.now faults.now (length rows.old)) }
    ensures words { rows.new ≡ trial_written n quorum d (to_total ceiling width) answered loads.now faults.now rows.old }
{
    let total = c_types::total(ceiling, width);
    layout::layout_commits(n, quorum, d, total, answered, loads, faults, rows).into()
}

// Four floats a replica: slope, delay, jitter, unreliability. `heard` has those that are not silent.
pub fn callboard_pick_assignment(
    n: usize,
    own: usize,
    quorum: usize,
    d: usize,
    ceiling: u64,
    width: usize,
    size: u64,
    penalty: f64,
    heard: u64,
    models: &[f64],
    inflight: &[u64],
    faults: &[u64],
    rows: &mut [u64],
) -> Plan
    ensures answer { result ≡ to_plan (pick_in n own quorum d (to_total ceiling width) size penalty heard models.now inflight.now faults.now (length rows.old)) }
    ensures words { rows.new ≡ planned (pick_in n own quorum d (to_total ceiling width) size penalty heard models.now inflight.now faults.now (length rows.old)) rows.old }
{
    let total = c_types::total(ceiling, width);
    let peers = c_types::from_peers(heard, models, inflight);
    let own = ReplicaId(own);
    let typed = assignment::check_pick(n, own, quorum, d, total, size, peers, faults, rows.len());
    match check_tables(typed, n, heard, models.len(), inflight.len()) {
        Err(refusal) => Plan::from(Err(refusal)),
        Ok(()) => assignment::pick_assignment(
            n, own, quorum, d, total, size, peers, penalty, faults, rows,
        ).into(),
    }
}

// What refuses the tables of a plan: after the entry's own cases below 16.
#[tactic(auto, unfolding(crate::specs::Tests::plan_tables))]
fn check_tables(
    typed: Result<(), Refusal>,
    n: usize,
    heard: u64,
    models: usize,
    inflight: usize,
) -> Result<(), Refusal>
    ensures { refusal_of result ≡ plan_tables (refusal_of typed) n heard models inflight }
{
    if let Err(refusal) = typed {
        // Kept as it is: a derived order is no plainer, since the definition (plan_tables) compares the numbers.
        if refusal.number() < Refusal::Mask.number() {
            return Err(refusal);
        }
    }
    unless(refusals::is_mask(n, heard), Refusal::Mask)?;
    unless(c_types::is_records(models, 4, n), Refusal::Table)?;
    unless(inflight == n, Refusal::Table)
}

// The value is the width.
pub fn callboard_full_copies(
    n: usize,
    d: usize,
    ceiling: u64,
    width: usize,
    rows: &mut [u64],
) -> Answer
    ensures answer { result ≡ to_answer (full_copies_of n d (to_total ceiling width) (length rows.old)) }
    ensures words { rows.new ≡ copies_written n d (to_total ceiling width) rows.old }
{
    assignment::full_copies(n, d, c_types::total(ceiling, width), rows).into()
}

pub fn callboard_min_shards_per_replica(
    n: usize,
    f: usize,
    d: usize,
    majority: usize,
    alive: u64,
) -> Answer
    ensures { result ≡ to_answer (min_shards_of n f d majority alive) }
{
    adaptive::min_shards_per_replica(n, f, d, majority, alive).into()
}

// Three floats a replica: slope, delay, jitter.
pub fn callboard_pick_assignment_policy(
    n: usize,
    f: usize,
    own: usize,
    d: usize,
    w: usize,
    majority: usize,
    size: u64,
    adaptive: u64,
    balanced: u64,
    models: &[f64],
    inflight: &[u64],
    alive: u64,
    init: &[u64],
    table: &[u64],
) -> Choice
    ensures { result ≡ to_choice (policy_in n f own d w majority size adaptive balanced models.now inflight.now alive init.now table.now true) }
{
    let input = PolicyInput {
        population: n,
        tolerance: f,
        own: ReplicaId(own),
        data_shards: d,
        width: w,
        majority,
        size,
        inflight,
        models,
        alive,
        initial: init,
        table,
        adaptive: c_types::is_set(adaptive),
        balanced: c_types::is_set(balanced),
    };
    adaptive::pick_assignment_policy(&input).into()
}

// The same, with the n rows of the choice written to the lent table.
pub fn callboard_policy_rows<'a>(
    n: usize,
    f: usize,
    own: usize,
    d: usize,
    w: usize,
    majority: usize,
    size: u64,
    adaptive: u64,
    balanced: u64,
    models: &[f64],
    inflight: &[u64],
    alive: u64,
    init: &'a [u64],
    table: &'a [u64],
    rows: &mut [u64],
) -> Choice
    ensures answer { result ≡ to_choice (policy_in n f own d w majority size adaptive balanced models.now inflight.now alive init.now table.now (is_table n (length rows.old))) }
    ensures words { rows.new ≡ rows_left n d majority (policy_in n f own d w majority size adaptive balanced models.now inflight.now alive init.now table.now (is_table n (length rows.old))) init.now table.now rows.old }
{
    // Kept as it is: made as above, since a function that makes it would take the same fourteen values and name each of them again.
    let input = PolicyInput {
        population: n,
        tolerance: f,
        own: ReplicaId(own),
        data_shards: d,
        width: w,
        majority,
        size,
        inflight,
        models,
        alive,
        initial: init,
        table,
        adaptive: c_types::is_set(adaptive),
        balanced: c_types::is_set(balanced),
    };
    let choice = policy(&input, refusals::is_table(n, rows.len()));
    copy_part(adaptive::rows_of(n, d, majority, choice, init, table), rows);
    choice.into()
}

// The choice, where the table that is lent for its rows fits.
fn policy(input: &PolicyInput, fits: bool) -> Result<Policy, Refusal>
    ensures { outcome_by chosen result ≡ fitting_of fits (policy_for input.now) }
{
    let choice = adaptive::pick_assignment_policy(input)?;
    unless(fits, Refusal::Table)?;
    Ok(choice)
}

// Copies a part that has as many words as the table; a refused choice has none.
// Kept as it is: copy_from_slice was tried: with it the archive for C needs memmove from outside.
fn copy_part(part: &[u64], rows: &mut [u64])
    ensures { rows.new ≡ copied part.now rows.old }
{
    if part.len() == rows.len() {
        for i in 0..rows.len() {
            rows[i] = part[i];
        }
    }
}

// The rows are written to the lent table; the value is 0.
pub fn callboard_parse_init_assignment(
    n: usize,
    d: usize,
    total: usize,
    text: &[u8],
    rows: &mut [u64],
) -> Answer
    ensures answer { result ≡ to_done (init_table n d total text.now (length rows.old)) }
    ensures words { rows.new ≡ left (init_table n d total text.now (length rows.old)) rows.old }
{
    layout_text::parse_init_assignment(n, d, total, text, rows).into()
}

// The value is the mask of the replicas asked.
pub fn callboard_gossip_targets_excl(
    n: usize,
    own: usize,
    source: usize,
    d: usize,
    w: usize,
    available: Row,
    rows: &[u64],
    alive: u64,
    exclusions: &mut [u64],
) -> Answer
    ensures answer { result ≡ to_answer (gossip_of n own source d w (row_of available) rows.now alive (length exclusions.old)) }
    ensures words { exclusions.new ≡ exclusions_left n own source d w (row_of available) rows.now alive exclusions.old }
{
    gossip::gossip_targets_excl(
        n,
        ReplicaId(own),
        ReplicaId(source),
        d,
        w,
        available,
        rows,
        alive,
        exclusions,
    )
    .into()
}

pub fn callboard_tally_open(
    n: usize,
    quorum: usize,
    d: usize,
    w: usize,
    ballot: u64,
    high: u64,
    low: u64,
) -> TallyOpening
    ensures { result ≡ to_opening (opening_of n quorum d w (proposal_of ballot high low)) }
{
    tally::open(n, quorum, d, w, proposal(ballot, high, low)).into()
}

// Counts a reply on a lent tally. A refused one leaves it as it was: nothing is stored.
pub fn callboard_accept_reply(
    t: &mut Tally,
    source: usize,
    ballot: u64,
    high: u64,
    low: u64,
    row: Row,
    faults: &[u64],
) -> Reply
    ensures answer { result ≡ to_reply (reply_of (from_tally t.old) (told source (proposal_of ballot high low) (row_of row) faults.now)) }
    ensures tally { t.new ≡ tally_left t.old (tally_after (from_tally t.old) (told source (proposal_of ballot high low) (row_of row) faults.now)) }
{
    counted(
        t,
        &AcceptReply {
            source: ReplicaId(source),
            proposal: proposal(ballot, high, low),
            row,
            faults,
        },
    )
    .into()
}

// The same, with the reply in a struct.
fn counted(t: &mut Tally, r: &AcceptReply) -> Result<Status, Refusal>
    ensures answer { outcome_of result ≡ reply_of (from_tally t.old) (from_reply r.now) }
    ensures tally { t.new ≡ tally_left t.old (tally_after (from_tally t.old) (from_reply r.now)) }
{
    let replied = tally::reply((*t).into(), r)?;
    *t = c_types::tally_left(*t, replied.tally);
    Ok(replied.status)
}

fn proposal(ballot: u64, value_high: u64, value_low: u64) -> Proposal
    ensures { result ≡ proposal_of ballot value_high value_low }
{
    Proposal {
        ballot,
        value_high,
        value_low,
    }
}
