// The static library: an export for each function of the C interface (include/callboard.h), with the same clauses. Each calls the function
// of its name in the crate callboard, which has the interface as a library.
// Kept as it is: the C interface needs its exports in a static library, which no library can be, so the clauses are written twice.
// Kept as it is: the C interface fixes the parameters, one by one, and lends tables side by side.
#![tactic(auto)]

ghost use Rattle.std.specs.Prelude.{◌≡◌, true, length};
ghost use Rattle.profiles.specs.Unreliability.{unreliability_of};
ghost use Rattle.profile_text.specs.ProfileText.{profile_of};
ghost use Rattle.faults.specs.FaultList.{fault_list_of, fault_words};
ghost use Rattle.coverage.specs.Coverage.{covers_of, survived_of};
ghost use Rattle.coverage.specs.Walk.{rows_united_of};
ghost use Rattle.layout.specs.Layout.{layout_rows_of, rows_written, layout_commits_of, trial_written};
ghost use Rattle.assignment.specs.Plans.{planned, full_copies_of, copies_written};
ghost use Rattle.adaptive.specs.Floor.{min_shards_of};
ghost use Rattle.adaptive.specs.Policy.{chosen};
ghost use Rattle.layout_text.specs.LayoutText.{init_table};
ghost use Rattle.refusals.specs.Outcome.{left};
ghost use Rattle.refusals.specs.Limits.{is_table};
ghost use Rattle.rows.specs.Row.{row_of};
ghost use Rattle.gossip.specs.Gossip.{gossip_of, exclusions_left};
ghost use Rattle.tally.specs.Tally.{opening_of, told, reply_of, tally_after};
ghost use Rattle.c_types.specs.CTypes.{to_total, to_answer, to_flag, to_done, to_float, to_layout, to_plan, to_choice, to_reply, to_reading, from_profile, from_tally, tally_left, to_opening, proposal_of};
ghost use Rattle.callboard.specs.Interface.{pick_in, policy_in, copied, rows_left};
ghost use Rattle.callboard.specs.Tests.{is_past, plan_tables, fitting_of};

use c_types::{
    Answer, Choice, FloatAnswer, Layout, Plan, Profile, ProfileReading, Reply, Tally, TallyOpening,
};
use rows::Row;

#[unsafe(no_mangle)]
pub extern "C" fn callboard_parse_profile(n: usize, text: &[u8]) -> ProfileReading
    ensures { result ≡ to_reading (profile_of n text.now) }
{
    callboard::callboard_parse_profile(n, text)
}

#[unsafe(no_mangle)]
pub extern "C" fn callboard_unreliability(
    n: usize,
    peer: usize,
    p: Profile,
    down: f64,
) -> FloatAnswer
    ensures { result ≡ to_float (unreliability_of n peer (from_profile p) down) }
{
    callboard::callboard_unreliability(n, peer, p, down)
}

// The value is the count of the list.
#[unsafe(no_mangle)]
pub extern "C" fn callboard_fault_list(n: usize, f: usize, p: Profile, list: &mut [u64]) -> Answer
    ensures answer { result ≡ to_answer (fault_list_of n f (from_profile p) (length list.old)) }
    ensures words { list.new ≡ fault_words n f (from_profile p) list.old }
{
    callboard::callboard_fault_list(n, f, p, list)
}

// The value is 1 if the value is covered, else 0.
#[unsafe(no_mangle)]
pub extern "C" fn callboard_covers(
    n: usize,
    d: usize,
    w: usize,
    heard: u64,
    rows: &[u64],
    faults: &[u64],
) -> Answer
    ensures { result ≡ to_flag (covers_of n d w heard rows.now faults.now) }
{
    callboard::callboard_covers(n, d, w, heard, rows, faults)
}

// The value is how many rows the walk unites.
#[unsafe(no_mangle)]
pub extern "C" fn callboard_rows_united(
    n: usize,
    d: usize,
    w: usize,
    heard: u64,
    rows: &[u64],
    faults: &[u64],
) -> Answer
    ensures { result ≡ to_answer (rows_united_of n d w heard rows.now faults.now) }
{
    callboard::callboard_rows_united(n, d, w, heard, rows, faults)
}

#[unsafe(no_mangle)]
pub extern "C" fn callboard_survived_by(n: usize, heard: u64, faults: &[u64]) -> Answer
    ensures { result ≡ to_flag (survived_of n heard faults.now) }
{
    callboard::callboard_survived_by(n, heard, faults)
}

// The value is the width.
#[unsafe(no_mangle)]
pub extern "C" fn callboard_layout_rows(
    n: usize,
    d: usize,
    ceiling: u64,
    width: usize,
    loads: &[usize],
    rows: &mut [u64],
) -> Answer
    ensures answer { result ≡ to_answer (layout_rows_of n d (to_total ceiling width) loads.now (length rows.old)) }
    ensures words { rows.new ≡ rows_written n d (to_total ceiling width) loads.now rows.old }
{
    callboard::callboard_layout_rows(n, d, ceiling, width, loads, rows)
}

#[unsafe(no_mangle)]
pub extern "C" fn callboard_layout_commits(
    n: usize,
    quorum: usize,
    d: usize,
    ceiling: u64,
    width: usize,
    answered: u64,
    loads: &[usize],
    faults: &[u64],
    rows: &mut [u64],
) -> Layout
    ensures answer { result ≡ to_layout (layout_commits_of n quorum d (to_total ceiling width) answered loads.now faults.now (length rows.old)) }
    ensures words { rows.new ≡ trial_written n quorum d (to_total ceiling width) answered loads.now faults.now rows.old }
{
    callboard::callboard_layout_commits(n, quorum, d, ceiling, width, answered, loads, faults, rows)
}

// Four floats a replica: slope, delay, jitter, unreliability. `heard` has those that are not silent.
#[unsafe(no_mangle)]
pub extern "C" fn callboard_pick_assignment(
    n: usize,
    own: usize,
    quorum: usize,
    d: usize,
    ceiling: u64,
    width: usize,
    size: u64,
    penalty: f64,
    heard: u64,
    models: &[f64],
    inflight: &[u64],
    faults: &[u64],
    rows: &mut [u64],
) -> Plan
    ensures answer { result ≡ to_plan (pick_in n own quorum d (to_total ceiling width) size penalty heard models.now inflight.now faults.now (length rows.old)) }
    ensures words { rows.new ≡ planned (pick_in n own quorum d (to_total ceiling width) size penalty heard models.now inflight.now faults.now (length rows.old)) rows.old }
{
    callboard::callboard_pick_assignment(
        n, own, quorum, d, ceiling, width, size, penalty, heard, models, inflight, faults, rows,
    )
}

// The value is the width.
#[unsafe(no_mangle)]
pub extern "C" fn callboard_full_copies(
    n: usize,
    d: usize,
    ceiling: u64,
    width: usize,
    rows: &mut [u64],
) -> Answer
    ensures answer { result ≡ to_answer (full_copies_of n d (to_total ceiling width) (length rows.old)) }
    ensures words { rows.new ≡ copies_written n d (to_total ceiling width) rows.old }
{
    callboard::callboard_full_copies(n, d, ceiling, width, rows)
}

#[unsafe(no_mangle)]
pub extern "C" fn callboard_min_shards_per_replica(
    n: usize,
    f: usize,
    d: usize,
    majority: usize,
    alive: u64,
) -> Answer
    ensures { result ≡ to_answer (min_shards_of n f d majority alive) }
{
    callboard::callboard_min_shards_per_replica(n, f, d, majority, alive)
}

// Three floats a replica: slope, delay, jitter.
#[unsafe(no_mangle)]
pub extern "C" fn callboard_pick_assignment_policy(
    n: usize,
    f: usize,
    own: usize,
    d: usize,
    w: usize,
    majority: usize,
    size: u64,
    adaptive: u64,
    balanced: u64,
    models: &[f64],
    inflight: &[u64],
    alive: u64,
    init: &[u64],
    table: &[u64],
) -> Choice
    ensures { result ≡ to_choice (policy_in n f own d w majority size adaptive balanced models.now inflight.now alive init.now table.now true) }
{
    callboard::callboard_pick_assignment_policy(
        n, f, own, d, w, majority, size, adaptive, balanced, models, inflight, alive, init, table,
    )
}

// The same, with the n rows of the choice written to the lent table.
#[unsafe(no_mangle)]
pub extern "C" fn callboard_policy_rows<'a>(
    n: usize,
    f: usize,
    own: usize,
    d: usize,
    w: usize,
    majority: usize,
    size: u64,
    adaptive: u64,
    balanced: u64,
    models: &[f64],
    inflight: &[u64],
    alive: u64,
    init: &'a [u64],
    table: &'a [u64],
    rows: &mut [u64],
) -> Choice
    ensures answer { result ≡ to_choice (policy_in n f own d w majority size adaptive balanced models.now inflight.now alive init.now table.now (is_table n (length rows.old))) }
    ensures words { rows.new ≡ rows_left n d majority (policy_in n f own d w majority size adaptive balanced models.now inflight.now alive init.now table.now (is_table n (length rows.old))) init.now table.now rows.old }
{
    callboard::callboard_policy_rows(
        n, f, own, d, w, majority, size, adaptive, balanced, models, inflight, alive, init, table,
        rows,
    )
}

// The rows are written to the lent table; the value is 0.
#[unsafe(no_mangle)]
pub extern "C" fn callboard_parse_init_assignment(
    n: usize,
    d: usize,
    total: usize,
    text: &[u8],
    rows: &mut [u64],
) -> Answer
    ensures answer { result ≡ to_done (init_table n d total text.now (length rows.old)) }
    ensures words { rows.new ≡ left (init_table n d total text.now (length rows.old)) rows.old }
{
    callboard::callboard_parse_init_assignment(n, d, total, text, rows)
}

// The value is the mask of the replicas asked.
#[unsafe(no_mangle)]
pub extern "C" fn callboard_gossip_targets_excl(
    n: usize,
    own: usize,
    source: usize,
    d: usize,
    w: usize,
    available: Row,
    rows: &[u64],
    alive: u64,
    exclusions: &mut [u64],
) -> Answer
    ensures answer { result ≡ to_answer (gossip_of n own source d w (row_of available) rows.now alive (length exclusions.old)) }
    ensures words { exclusions.new ≡ exclusions_left n own source d w (row_of available) rows.now alive exclusions.old }
{
    callboard::callboard_gossip_targets_excl(
        n, own, source, d, w, available, rows, alive, exclusions,
    )
}

#[unsafe(no_mangle)]
pub extern "C" fn callboard_tally_open(
    n: usize,
    quorum: usize,
    d: usize,
    w: usize,
    ballot: u64,
    high: u64,
    low: u64,
) -> TallyOpening
    ensures { result ≡ to_opening (opening_of n quorum d w (proposal_of ballot high low)) }
{
    callboard::callboard_tally_open(n, quorum, d, w, ballot, high, low)
}

// Counts a reply on a lent tally. A refused one leaves it as it was: nothing is stored.
#[unsafe(no_mangle)]
pub extern "C" fn callboard_accept_reply(
    t: &mut Tally,
    source: usize,
    ballot: u64,
    high: u64,
    low: u64,
    row: Row,
    faults: &[u64],
) -> Reply
    ensures answer { result ≡ to_reply (reply_of (from_tally t.old) (told source (proposal_of ballot high low) (row_of row) faults.now)) }
    ensures tally { t.new ≡ tally_left t.old (tally_after (from_tally t.old) (told source (proposal_of ballot high low) (row_of row) faults.now)) }
{
    callboard::callboard_accept_reply(t, source, ballot, high, low, row, faults)
}
