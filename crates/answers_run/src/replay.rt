// For each entry whether it answers a line as it says. A line is the input, the answer, and the words that a lent table is left with.
ghost use Rattle.std.specs.Prelude.{◌≡◌};
ghost use Rattle.tally.specs.Tally.{told};
ghost use Rattle.rows.specs.Row.{row_of};
ghost use Rattle.c_types.specs.CTypes.{proposal_of};
ghost use Rattle.c_types.specs.TallyThroughC.{answer_through, left_through};

use c_types::{Reply, Tally};
use rows::Row;
use std::alloc::{AllocError, Global};
use stored::Line;

// The most words of a lent table; a line that has a longer one differs.
const MOST_WORDS: usize = 512;

pub fn is_profile(alloc: Global, mut line: Line) -> Result<bool, AllocError> {
    let n = line.size();
    let text = take_bytes(alloc, &mut line)?;
    let r = callboard::callboard_parse_profile(n, &text);
    if line.number() != r.refusal {
        return Ok(false);
    }
    Ok(r.refusal != 0 || line.is_profile(r.profile))
}

pub fn is_unreliability(_: Global, mut line: Line) -> Result<bool, AllocError> {
    let n = line.size();
    let peer = line.size();
    let profile = line.profile();
    let down = line.float();
    let r = callboard::callboard_unreliability(n, peer, profile, down);
    Ok(line.number() == r.refusal && line.number() == stored::bits(r.value))
}

pub fn is_faults(alloc: Global, mut line: Line) -> Result<bool, AllocError> {
    let n = line.size();
    let f = line.size();
    let profile = line.profile();
    let Some(mut list) = take_table(alloc, &mut line)? else {
        return Ok(false);
    };
    let r = callboard::callboard_fault_list(n, f, profile, &mut list);
    Ok(line.is_answer(r) && line.is_slice(&list))
}

pub fn is_covers(_: Global, mut line: Line) -> Result<bool, AllocError> {
    let n = line.size();
    let d = line.size();
    let w = line.size();
    let heard = line.number();
    let rows = line.slice();
    let faults = line.slice();
    let r = callboard::callboard_covers(n, d, w, heard, rows, faults);
    Ok(line.is_answer(r))
}

pub fn is_united(_: Global, mut line: Line) -> Result<bool, AllocError> {
    let n = line.size();
    let d = line.size();
    let w = line.size();
    let heard = line.number();
    let rows = line.slice();
    let faults = line.slice();
    let r = callboard::callboard_rows_united(n, d, w, heard, rows, faults);
    Ok(line.is_answer(r))
}

pub fn is_survived(_: Global, mut line: Line) -> Result<bool, AllocError> {
    let n = line.size();
    let heard = line.number();
    let faults = line.slice();
    let r = callboard::callboard_survived_by(n, heard, faults);
    Ok(line.is_answer(r))
}

pub fn is_layout(alloc: Global, mut line: Line) -> Result<bool, AllocError> {
    let n = line.size();
    let d = line.size();
    let ceiling = line.number();
    let width = line.size();
    let loads = take_loads(alloc, &mut line)?;
    let Some(mut rows) = take_table(alloc, &mut line)? else {
        return Ok(false);
    };
    let r = callboard::callboard_layout_rows(n, d, ceiling, width, &loads, &mut rows);
    Ok(line.is_answer(r) && line.is_slice(&rows))
}

pub fn is_commits(alloc: Global, mut line: Line) -> Result<bool, AllocError> {
    let n = line.size();
    let quorum = line.size();
    let d = line.size();
    let ceiling = line.number();
    let width = line.size();
    let answered = line.number();
    let loads = take_loads(alloc, &mut line)?;
    let faults = line.slice();
    let Some(mut rows) = take_table(alloc, &mut line)? else {
        return Ok(false);
    };
    let r = callboard::callboard_layout_commits(
        n, quorum, d, ceiling, width, answered, &loads, faults, &mut rows,
    );
    Ok(line.is_trial(r) && line.is_slice(&rows))
}

pub fn is_plan(alloc: Global, mut line: Line) -> Result<bool, AllocError> {
    let n = line.size();
    let own = line.size();
    let quorum = line.size();
    let d = line.size();
    let ceiling = line.number();
    let width = line.size();
    let size = line.number();
    let penalty = line.float();
    let heard = line.number();
    let models = take_floats(alloc, &mut line)?;
    let inflight = line.slice();
    let faults = line.slice();
    let Some(mut rows) = take_table(alloc, &mut line)? else {
        return Ok(false);
    };
    let r = callboard::callboard_pick_assignment(
        n, own, quorum, d, ceiling, width, size, penalty, heard, &models, inflight, faults,
        &mut rows,
    );
    Ok(line.is_planned(r) && line.is_slice(&rows))
}

pub fn is_full(alloc: Global, mut line: Line) -> Result<bool, AllocError> {
    let n = line.size();
    let d = line.size();
    let ceiling = line.number();
    let width = line.size();
    let Some(mut rows) = take_table(alloc, &mut line)? else {
        return Ok(false);
    };
    let r = callboard::callboard_full_copies(n, d, ceiling, width, &mut rows);
    Ok(line.is_answer(r) && line.is_slice(&rows))
}

pub fn is_floor(_: Global, mut line: Line) -> Result<bool, AllocError> {
    let n = line.size();
    let f = line.size();
    let d = line.size();
    let majority = line.size();
    let alive = line.number();
    let r = callboard::callboard_min_shards_per_replica(n, f, d, majority, alive);
    Ok(line.is_answer(r))
}

pub fn is_policy(alloc: Global, mut line: Line) -> Result<bool, AllocError> {
    let n = line.size();
    let f = line.size();
    let own = line.size();
    let d = line.size();
    let w = line.size();
    let majority = line.size();
    let size = line.number();
    let adaptive = line.number();
    let balanced = line.number();
    let models = take_floats(alloc, &mut line)?;
    let inflight = line.slice();
    let alive = line.number();
    let init = line.slice();
    let table = line.slice();
    let Some(mut rows) = take_table(alloc, &mut line)? else {
        return Ok(false);
    };
    let r = callboard::callboard_policy_rows(
        n, f, own, d, w, majority, size, adaptive, balanced, &models, inflight, alive, init, table,
        &mut rows,
    );
    Ok(line.is_choice(r) && line.is_slice(&rows))
}

pub fn is_init(alloc: Global, mut line: Line) -> Result<bool, AllocError> {
    let n = line.size();
    let d = line.size();
    let total = line.size();
    let text = take_bytes(alloc, &mut line)?;
    let Some(mut rows) = take_table(alloc, &mut line)? else {
        return Ok(false);
    };
    let r = callboard::callboard_parse_init_assignment(n, d, total, &text, &mut rows);
    Ok(line.is_answer(r) && line.is_slice(&rows))
}

// A layout text that was read while a row was one word. It is the first of the four; the others are 0.
pub fn is_base_init(alloc: Global, mut line: Line) -> Result<bool, AllocError> {
    let n = line.size();
    let d = line.size();
    let total = line.size();
    let text = take_bytes(alloc, &mut line)?;
    let _words = line.size();
    let Some(mut rows) = lent(alloc, n.wrapping_mul(4))? else {
        return Ok(false);
    };
    let r = callboard::callboard_parse_init_assignment(n, d, total, &text, &mut rows);
    Ok(line.is_answer(r) && line.is_first_words(&rows))
}

pub fn is_gossip(alloc: Global, mut line: Line) -> Result<bool, AllocError> {
    let n = line.size();
    let own = line.size();
    let source = line.size();
    let d = line.size();
    let w = line.size();
    let available = line.row();
    let rows = line.slice();
    let alive = line.number();
    let Some(mut exclusions) = take_table(alloc, &mut line)? else {
        return Ok(false);
    };
    let r = callboard::callboard_gossip_targets_excl(
        n,
        own,
        source,
        d,
        w,
        available,
        rows,
        alive,
        &mut exclusions,
    );
    Ok(line.is_answer(r) && line.is_slice(&exclusions))
}

// A tally and a whole list of replies, each with the tally that it leaves.
pub fn is_tally(_: Global, mut line: Line) -> Result<bool, AllocError> {
    let n = line.size();
    let quorum = line.size();
    let d = line.size();
    let w = line.size();
    let ballot = line.number();
    let high = line.number();
    let low = line.number();
    let r = callboard::callboard_tally_open(n, quorum, d, w, ballot, high, low);
    if line.number() != r.refusal {
        return Ok(false);
    }
    Ok(r.refusal != 0 || are_replies(r.tally, &mut line))
}

fn are_replies(mut tally: Tally, line: &mut Line) -> bool {
    let count = line.number();
    for _ in 0..count {
        if !is_reply(&mut tally, line) {
            return false;
        }
    }
    true
}

fn is_reply(tally: &mut Tally, line: &mut Line) -> bool {
    let source = line.size();
    let ballot = line.number();
    let high = line.number();
    let low = line.number();
    let row = line.row();
    let faults = line.slice();
    let r = accept(tally, source, ballot, high, low, row, faults);
    line.is_reply(r) && is_left(tally, line)
}

// The C function on the tally that it is lent.
fn accept(
    tally: &mut Tally,
    source: usize,
    ballot: u64,
    high: u64,
    low: u64,
    row: Row,
    faults: &[u64],
) -> Reply
    ensures reply { result ≡ answer_through tally.old (told source (proposal_of ballot high low) (row_of row) faults.now) }
    ensures left { tally.new ≡ left_through tally.old (told source (proposal_of ballot high low) (row_of row) faults.now) }
{
    callboard::callboard_accept_reply(tally, source, ballot, high, low, row, faults)
}

// Whether the tally is as the line says: those heard, the flag, and the rows of its replicas.
fn is_left(tally: &Tally, line: &mut Line) -> bool {
    if line.number() != tally.heard || line.number() != tally.committed {
        return false;
    }
    let words = tally.population.min(16) * 4;
    let owed = line.first(words);
    (0..words).all(|i| bitmap::word_at(owed, i) == tally.rows[i])
}

// ---- the next value of a line

// A slice of bytes, of loads, of floats.
fn take_bytes(alloc: Global, line: &mut Line) -> Result<Vec<u8>, AllocError> {
    line.slice().iter().map(|n| (*n % 256) as u8).collect(alloc)
}

fn take_loads(alloc: Global, line: &mut Line) -> Result<Vec<usize>, AllocError> {
    line.slice().iter().map(|n| *n as usize).collect(alloc)
}

fn take_floats(alloc: Global, line: &mut Line) -> Result<Vec<f64>, AllocError> {
    line.slice()
        .iter()
        .map(|n| stored::float(*n))
        .collect(alloc)
}

// A lent table as it is before a call, of as many words as the next number says.
fn take_table(alloc: Global, line: &mut Line) -> Result<Option<Vec<u64>>, AllocError> {
    let k = line.size();
    lent(alloc, k)
}

// A lent table of k words as it is before a call, unless k is above MOST_WORDS.
fn lent(alloc: Global, k: usize) -> Result<Option<Vec<u64>>, AllocError> {
    if MOST_WORDS < k {
        return Ok(None);
    }
    let words = (0..k).map(stored::lent).collect(alloc)?;
    Ok(Some(words))
}
