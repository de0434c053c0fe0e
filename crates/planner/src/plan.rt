// A description's fault list, its plan and, where there is none, its full copies. The first entry that refuses ends it.
use crate::print::{Layout, Milliseconds};
use assignment::Plan;
use bitmap::ReplicaId;
use printed::Members;
use profiles::Profile;
use site::{Description, Key, Name, PeerText};
use site_check::Problem;
use std::io;
use times::{Peer, PeerRecord};

// As many fault sets as there can be: any 8 of 16 replicas.
const MOST_SETS: usize = 12870;

// What ends a plan before its end.
#[derive(Drop)]
enum Stop<'a> {
    Problem(Problem<'a>),
    Output(io::Error),
}

impl<'a> From<Problem<'a>> for Stop<'a> {
    fn from(problem: Problem<'a>) -> Self {
        Stop::Problem(problem)
    }
}

impl<'a> From<io::Error> for Stop<'a> {
    fn from(error: io::Error) -> Self {
        Stop::Output(error)
    }
}

// Prints the plan of a description, or what is wrong with it.
pub fn plan(out: &impl Print, description: Description<'_>) -> io::Result<()> {
    match steps(out, description) {
        Ok(()) => Ok(()),
        Err(Stop::Problem(problem)) => problem.print(out),
        Err(Stop::Output(error)) => Err(error),
    }
}

fn steps<'a>(out: &impl Print, description: Description<'a>) -> Result<(), Stop<'a>> {
    site_check::check_lines(description)?;
    if !site_check::print_incomplete(out, description)? {
        return Ok(());
    }
    let refused = |refusal| Problem::refused(description, refusal);
    let n = description.number_of(Key::Population) as usize;
    let text = description.value_of(Key::Profile);
    let profile = profile_text::parse_profile(n, text).map_err(&refused)?;
    let f = description.number_of(Key::Tolerance) as usize;
    // Kept as it is: a vector is no plainer, since the entry fills a lent list and answers the count.
    let mut list = [0u64; MOST_SETS];
    let k = faults::fault_list(n, f, profile, &mut list).map_err(&refused)?;
    let sets = &list[..k.min(MOST_SETS)];
    print_sets(out, sets)?;
    site_check::check_peers(description, n)?;
    let mut rows = [0u64; 64];
    let words = n.min(16) * 4;
    pick(out, description, n, profile, sets, &mut rows[..words])
}

fn print_sets(out: &impl Print, sets: &[u64]) -> io::Result<()> {
    println!(out; "fault sets {}", sets.len())?;
    for set in sets {
        println!(out; "  {}", Members(*set))?;
    }
    Ok(())
}

fn pick<'a>(
    out: &impl Print,
    description: Description<'a>,
    n: usize,
    profile: Profile,
    sets: &[u64],
    rows: &mut [u64],
) -> Result<(), Stop<'a>> {
    let refused = |refusal| Problem::refused(description, refusal);
    let own = description.number_of(Key::Own) as usize;
    let d = description.number_of(Key::DataShards) as usize;
    let total = description.total();
    let plan = assignment::pick_assignment(
        n,
        ReplicaId(own),
        description.number_of(Key::Quorum) as usize,
        d,
        total,
        description.number_of(Key::Size),
        std::array::from_fn(|i| record(description, n, ReplicaId(i), profile)),
        description.float_of(Key::Penalty),
        sets,
        rows,
    )
    .map_err(&refused)?;
    let width = match plan {
        Some(Plan { time, width }) => {
            println!(out; "plan")?;
            println!(out; "  time {}", Milliseconds(time))?;
            width
        }
        None => {
            println!(out; "none: at no time does a layout commit")?;
            let width = assignment::full_copies(n, d, total, rows).map_err(&refused)?;
            println!(out; "full copies")?;
            width
        }
    };
    print!(out; "{}", Layout { own, width, rows })?;
    Ok(())
}

// What the plan is told of a replica.
fn record(
    description: Description<'_>,
    n: usize,
    replica: ReplicaId,
    profile: Profile,
) -> PeerRecord {
    match description.peer(replica.0 as u64) {
        None => PeerRecord {
            peer: Peer::Silent,
            inflight: 0,
        },
        Some(said) => PeerRecord {
            peer: heard(said, n, replica, profile),
            inflight: said.in_flight(),
        },
    }
}

// No profile that was read is refused (`accepted_fits`).
fn heard(said: PeerText<'_>, n: usize, replica: ReplicaId, profile: Profile) -> Peer {
    if said.is_silent() {
        return Peer::Silent;
    }
    match profiles::unreliability(n, replica, profile, said.float(Name::Downtime)) {
        Err(_) => Peer::Silent,
        Ok(unreliability) => Peer::Heard {
            slope: said.float(Name::Slope),
            delay: said.float(Name::Delay),
            jitter: said.float(Name::Jitter),
            unreliability,
        },
    }
}
