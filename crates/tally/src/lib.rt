// The tally of accept replies for one value at one ballot (handle_msg_accept_reply, after the value id test): the opening, and what a reply
// does to it.
#![tactic(auto)]

ghost use Rattle.std.specs.Prelude.{◌≡◌, ◌+◌, ◌*◌, ◌≤◌, length, IfOk};
ghost use Rattle.rows.specs.Row.{row_of, row_in, with_row};
ghost use Rattle.refusals.specs.Refused.{refusal_of, outcome_of, outcome_by};
ghost use Rattle.tally.specs.Tally.{open_refusal, opening_of, row_with, from_reply, reply_refusal, status_of, reply_of, tally_after};

use bitmap::ReplicaId;
use coverage::Holdings;
use refusals::{Refusal, unless};
use rows::{Row, ShardSet};

// What is proposed: the ballot, and the value id in two words.
#[derive(Clone, Copy, PartialEq, Eq)]
pub struct Proposal {
    pub ballot: u64,
    pub value_high: u64,
    pub value_low: u64,
}

// Who has replied, and the shards that each has named. The row of a replica not heard has no meaning.
#[derive(Clone, Copy)]
pub struct Tally {
    pub population: usize,
    pub quorum: usize,
    pub data_shards: usize,
    pub width: usize,
    pub proposal: Proposal,
    pub heard: u64,
    pub committed: bool,
    pub rows: [u64; 64],
}

// An accept reply, and the fault list lent with it.
#[derive(Clone, Copy)]
pub struct AcceptReply<'a> {
    pub source: ReplicaId,
    pub proposal: Proposal,
    pub row: Row,
    pub faults: &'a [u64],
}

// The answer to a reply.
#[derive(Clone, Copy, Debug, PartialEq, Eq)]
pub enum Status {
    Waiting,
    Committed,
    AlreadyCommitted,
}

// The status, and the tally as the reply leaves it.
#[derive(Clone, Copy)]
pub struct Replied {
    pub status: Status,
    pub tally: Tally,
}

// A tally that has heard nobody.
#[tactic(auto, using(refusals::proofs::Entered::entered), unfolding(crate::specs::Tally::opening_of, crate::specs::Tally::fresh))]
pub fn open(
    n: usize,
    quorum: usize,
    d: usize,
    w: usize,
    proposal: Proposal,
) -> Result<Tally, Refusal>
    ensures { outcome_of result ≡ opening_of n quorum d w proposal }
{
    check_open(n, quorum, d, w)?;
    Ok(Tally {
        population: n,
        quorum,
        data_shards: d,
        width: w,
        proposal,
        heard: 0,
        committed: false,
        rows: [0; 64],
    })
}

// Counts a reply. By value: the tally is returned beside the status.
#[tactic(auto, using(refusals::proofs::Entered::entered), unfolding(crate::specs::Tally::reply_of, crate::specs::Tally::tally_after, crate::specs::Tally::noted, crate::specs::Tally::is_committing))]
pub fn reply(t: Tally, r: &AcceptReply) -> Result<Replied, Refusal>
    ensures status { outcome_by status_of result ≡ reply_of t (from_reply r.now) }
    ensures tally { IfOk result (λ replied. replied.tally ≡ tally_after t (from_reply r.now)) }
{
    check_reply(&t, r)?;
    if t.committed {
        return Ok(Replied {
            status: Status::AlreadyCommitted,
            tally: t,
        });
    }
    let mut rows = t.rows;
    note(t.heard, r.source, r.row, &mut rows);
    let heard = bitmap::with_replica(t.heard, r.source);
    let holdings = Holdings {
        population: t.population,
        width: t.width,
        heard,
        rows: &rows,
    };
    let committed = holdings.commits(t.quorum, t.data_shards, r.faults);
    let status = if committed {
        Status::Committed
    } else {
        Status::Waiting
    };
    Ok(Replied {
        status,
        tally: Tally {
            heard,
            committed,
            rows,
            ..t
        },
    })
}

// The same on a lent tally, as the source does it. A refused reply leaves it as it was: nothing is stored.
#[tactic(auto, using(crate::proofs::ReplyLaws::refused_leaves))]
pub fn accept_reply(t: &mut Tally, r: &AcceptReply) -> Result<Status, Refusal>
    ensures status { outcome_of result ≡ reply_of t.old (from_reply r.now) }
    ensures tally { t.new ≡ tally_after t.old (from_reply r.now) }
{
    let replied = reply(*t, r)?;
    *t = replied.tally;
    Ok(replied.status)
}

#[tactic(auto, unfolding(crate::specs::Tally::open_refusal))]
fn check_open(n: usize, quorum: usize, d: usize, w: usize) -> Result<(), Refusal>
    ensures { refusal_of result ≡ open_refusal n quorum d w }
{
    unless(refusals::is_population(n), Refusal::Population)?;
    unless(refusals::is_shards(d, w), Refusal::Shards)?;
    unless(refusals::is_quorum(n, quorum), Refusal::Quorum)
}

// Whether the reply is counted, or why not. The tally is tested like the opening's values, and its words too: it may come from anywhere.
#[tactic(auto, unfolding(crate::specs::Tally::reply_refusal, crate::specs::Tally::is_same_value, refusals::specs::Limits::is_population))]
fn check_reply(t: &Tally, r: &AcceptReply) -> Result<(), Refusal>
    ensures { refusal_of result ≡ reply_refusal t.now (from_reply r.now) }
{
    let n = t.population;
    unless(refusals::is_population(n), Refusal::Population)?;
    unless(refusals::is_replica(n, r.source), Refusal::Replica)?;
    unless(refusals::is_shards(t.data_shards, t.width), Refusal::Shards)?;
    unless(refusals::is_quorum(n, t.quorum), Refusal::Quorum)?;
    unless(refusals::is_mask(n, t.heard), Refusal::Mask)?;
    unless(refusals::are_rows(t.width, &t.rows[..n * 4]), Refusal::Mask)?;
    unless(refusals::is_row(t.width, r.row), Refusal::Mask)?;
    unless(refusals::is_fault_list(n, r.faults), Refusal::Table)?;
    unless(t.proposal == r.proposal, Refusal::OtherValue)
}

// The rows with that of the source replaced or united. A part: there is one of the source.
fn note(heard: u64, source: ReplicaId, row: Row, rows: &mut [u64])
    requires { source.0 * 4 + 4 ≤ length rows.old }
    ensures { rows.new ≡ with_row rows.old source.0 (row_with heard (row_in rows.old source.0) source.0 (row_of row)) }
{
    let held = Row::read_row(rows, source.0);
    row_with(heard, held, source, row).put(rows, source.0);
}

// The row of a first reply replaces the one held, that of a later reply is united with it.
fn row_with(heard: u64, held: Row, source: ReplicaId, row: Row) -> Row
    ensures { row_of result ≡ row_with heard (row_of held) source.0 (row_of row) }
{
    if bitmap::has_replica(heard, source) {
        held.union(row)
    } else {
        row
    }
}
