// Gossip: which peers a replica asks for its missing shards, and which shards it tells each to leave out (gossip_targets_excl).
#![tactic(auto)]

ghost use Rattle.std.specs.Prelude.{◌≡◌, ◌+◌, ◌*◌, ◌≤◌, ◌<◌, length};
ghost use mathlib.Core.List.{foldl};
ghost use Rattle.rows.specs.Row.{row_of, row_in, rows_in};
ghost use Rattle.refusals.specs.Refused.{refusal_of, outcome_of};
ghost use Rattle.gossip.specs.Gossip.{walked, fresh, met, visit, round, turns, gossip_refusal, gossip_of, exclusions_left};

use bitmap::ReplicaId;
use refusals::{Refusal, unless};
use rows::{Row, ShardSet};

// Who asks and which source first sent us the value, how many shards are enough, and the row that each of the population holds; the mask
// has those alive.
#[derive(Clone, Copy)]
struct Peers<'a> {
    population: usize,
    own: ReplicaId,
    source: ReplicaId,
    data_shards: usize,
    rows: &'a [u64],
    alive: u64,
    ghost few: { population ≤ 16 },
    ghost own_below: { own.0 < population },
    ghost source_below: { source.0 < population },
    ghost table: { length rows.now ≡ population * 4 },
}

impl Peers<'_> {
    // The whole walk: once round the ring, and then to the source, unless that is oneself.
    // Kept as it is: a struct of peers and exclusions is no plainer, as its methods must ensure that the peers stay the same (so below).
    #[tactic(auto, using(crate::proofs::Steps::ends_round, crate::proofs::Steps::ends_source))]
    fn walk(&self, available: Row, exclusions: &mut [u64]) -> Progress
        requires { length exclusions.old ≡ self.now.population * 4 }
        ensures { walked result (rows_in exclusions.new) ≡ foldl (visit self.now.data_shards (row_in self.now.rows.now) self.now.alive) (fresh (row_of available) (rows_in exclusions.old)) (turns self.now.population self.now.own.0 self.now.source.0) }
    {
        let rounded = self.walk_ring(available, exclusions);
        if self.source == self.own {
            return rounded;
        }
        rounded.visit(self, self.source, exclusions)
    }

    // Once round the ring, from the peer after us on, past the source.
    fn walk_ring(&self, available: Row, exclusions: &mut [u64]) -> Progress
        requires { length exclusions.old ≡ self.now.population * 4 }
        ensures { walked result (rows_in exclusions.new) ≡ foldl (visit self.now.data_shards (row_in self.now.rows.now) self.now.alive) (fresh (row_of available) (rows_in exclusions.old)) (round self.now.population self.now.own.0 self.now.source.0) }
    {
        let mut so_far = Progress {
            asked: 0,
            available,
            over: false,
        };
        for j in 0..self.population - 1 {
            if so_far.over {
                return so_far;
            }
            let p = ReplicaId((self.own.0 + 1 + j) % self.population);
            if p != self.source {
                so_far = so_far.visit(self, p, exclusions);
            }
        }
        so_far
    }
}

// How far the walk has come: those asked, the shards that one will have, and whether the walk is over.
// Kept as it is: an enum of a walk that goes on or is over is no plainer, since both have those asked and the shards.
#[derive(Clone, Copy)]
struct Progress {
    asked: u64,
    available: Row,
    over: bool,
}

impl Progress {
    // The turn of the peer p: it is passed over if the walk is over, or it is dead.
    #[tactic(auto, unfolding(crate::specs::Gossip::visit))]
    fn visit(self, peers: &Peers, p: ReplicaId, exclusions: &mut [u64]) -> Progress
        requires peer { p.0 < peers.now.population }
        requires table { length exclusions.old ≡ peers.now.population * 4 }
        ensures { walked result (rows_in exclusions.new) ≡ visit peers.now.data_shards (row_in peers.now.rows.now) peers.now.alive (walked self (rows_in exclusions.old)) p.0 }
    {
        if self.over || !bitmap::has_replica(peers.alive, p) {
            return self;
        }
        let row = Row::read_row(peers.rows, p.0);
        self.meet(peers.data_shards, row, p, exclusions)
    }

    // A live peer with that row: it is asked if a shard of it is missing, and is to leave out what was available before it.
    fn meet(self, d: usize, row: Row, p: ReplicaId, exclusions: &mut [u64]) -> Progress
        requires peer { p.0 < 64 }
        requires table { p.0 * 4 + 4 ≤ length exclusions.old }
        ensures { walked result (rows_in exclusions.new) ≡ met d (row_of row) (walked self (rows_in exclusions.old)) p.0 }
    {
        let before = self.available;
        let available = before.union(row);
        let over = d <= available.count();
        if available == before {
            return Progress {
                asked: self.asked,
                available,
                over,
            };
        }
        before.put(exclusions, p.0);
        Progress {
            asked: bitmap::with_replica(self.asked, p),
            available,
            over,
        }
    }
}

// Greedily considers the peers from the one after us on until enough shards are covered; the source, which first sent us the value, is the
// last. Answers those to ask, as a mask; what each of them is to leave out is in the lent table, four words a row.
#[tactic(auto, using(refusals::proofs::Entered::entered), unfolding(crate::specs::Gossip::gossip_of, crate::specs::Gossip::exclusions_left))]
pub fn gossip_targets_excl(
    n: usize,
    own: ReplicaId,
    source: ReplicaId,
    d: usize,
    w: usize,
    available: Row,
    rows: &[u64],
    alive: u64,
    exclusions: &mut [u64],
) -> Result<u64, Refusal>
    ensures answer { outcome_of result ≡ gossip_of n own.0 source.0 d w (row_of available) rows.now alive (length exclusions.old) }
    ensures words { exclusions.new ≡ exclusions_left n own.0 source.0 d w (row_of available) rows.now alive exclusions.old }
{
    check_gossip(
        n,
        own,
        source,
        d,
        w,
        available,
        rows,
        alive,
        exclusions.len(),
    )?;
    exclusions.fill(0);
    let peers = Peers {
        population: n,
        own,
        source,
        data_shards: d,
        rows,
        alive,
    };
    let end = peers.walk(available, exclusions);
    Ok(end.asked)
}

#[tactic(auto, unfolding(crate::specs::Gossip::gossip_refusal))]
fn check_gossip(
    n: usize,
    own: ReplicaId,
    source: ReplicaId,
    d: usize,
    w: usize,
    available: Row,
    rows: &[u64],
    alive: u64,
    exclusions: usize,
) -> Result<(), Refusal>
    ensures { refusal_of result ≡ gossip_refusal n own.0 source.0 d w (row_of available) rows.now alive exclusions }
{
    unless(refusals::is_population(n), Refusal::Population)?;
    unless(refusals::is_replica(n, own), Refusal::Replica)?;
    unless(refusals::is_replica(n, source), Refusal::Replica)?;
    unless(refusals::is_shards(d, w), Refusal::Shards)?;
    unless(refusals::is_row(w, available), Refusal::Mask)?;
    unless(refusals::are_rows(w, rows), Refusal::Mask)?;
    unless(refusals::is_mask(n, alive), Refusal::Mask)?;
    unless(refusals::is_table(n, rows.len()), Refusal::Table)?;
    unless(refusals::is_table(n, exclusions), Refusal::Table)
}
