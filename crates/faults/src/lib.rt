// The fault list: the maximal sets of replicas whose failure a committed value must survive (crash_sets, Tolerance::new).
#![tactic(auto)]

ghost use Rattle.std.specs.Prelude.{◌≡◌, true, ◌*◌, ◌^◌, ◌<◌, ◌≤◌, length, replicate};
ghost use Rattle.std.specs.List.{list_all};
ghost use Rattle.refusals.specs.First.{first_of};
ghost use Rattle.refusals.specs.Refused.{refusal_of, outcome_of};
ghost use Rattle.refusals.specs.Limits.{is_mask};
ghost use Rattle.floats.specs.Floats.{is_probability, Fine};
ghost use Rattle.marks.specs.Marks.{flagged};
ghost use Rattle.maximal.specs.Tables.{Flags};
ghost use Rattle.faults.specs.Family.{is_sized, is_among, family};
ghost use Rattle.faults.specs.Marks.{Marked, is_hit};
ghost use Rattle.faults.specs.FaultList.{Accepted, input_cases, list_answer, list_words, fault_list_of, fault_words};

use marks::Marks;
use profiles::Profile;
use refusals::{Refusal, unless};

// The maximal sets of the family of a profile of n replicas, any f of which may fail, written to the front of `list` as masks in rising
// order. A small population works in a table of 256 bits, so that it does not clear that of a large one, 65,536 bits in 8 KiB.
pub fn fault_list(n: usize, f: usize, p: Profile, list: &mut [u64]) -> Result<usize, Refusal>
    ensures answer { outcome_of result ≡ fault_list_of n f p (length list.old) }
    ensures words { list.new ≡ fault_words n f p list.old }
{
    check_input(n, f, &p)?;
    if n <= 8 {
        return list_family::<4>(n, f, &p, list);
    }
    list_family::<1024>(n, f, &p, list)
}

fn check_input(n: usize, f: usize, p: &Profile) -> Result<(), Refusal>
    ensures { refusal_of result ≡ first_of (input_cases n f p.now) }
{
    unless(refusals::is_population(n), Refusal::Population)?;
    unless(refusals::is_tolerance(n, f), Refusal::Tolerance)?;
    profiles::check_profile(n, p)
}

// The fault list, worked out in a table of WORDS words.
fn list_family<const WORDS: usize>(
    n: usize,
    f: usize,
    p: &Profile,
    list: &mut [u64],
) -> Result<usize, Refusal>
    requires few { n ≤ 16 }
    requires room { 2 ^ n ≤ 64 * WORDS }
    requires short { WORDS ≤ 1024 }
    requires accepted { Accepted n p.now }
    ensures answer { outcome_of result ≡ list_answer (family n f p.now) n (length list.old) }
    ensures words { list.new ≡ list_words (family n f p.now) n list.old }
{
    let mut marks: Marks<WORDS> = Marks::new(n);
    mark_family(&mut marks, f, p);
    list_maximal(&mut marks, list)
}

// Lists the maximal sets of the family that the table flags, and leaves them alone flagged there.
fn list_maximal<const WORDS: usize>(
    marks: &mut Marks<WORDS>,
    list: &mut [u64],
) -> Result<usize, Refusal>
    ensures answer { outcome_of result ≡ list_answer (flagged marks.old.words) marks.old.replicas (length list.old) }
    ensures words { list.new ≡ list_words (flagged marks.old.words) marks.old.replicas list.old }
{
    let all = marks.sets() - 1;
    unless(!marks.has(all), Refusal::EveryReplica)?;
    maximal::keep_marks(marks);
    let count = marks.count();
    unless(count <= list.len(), Refusal::Room)?;
    marks.write(list);
    Ok(count)
}

// Flags the family of a profile, any f of whose replicas may fail, in a table that flags no set.
fn mark_family<const WORDS: usize>(marks: &mut Marks<WORDS>, f: usize, p: &Profile)
    requires blank { marks.old.words ≡ replicate WORDS 0 }
    requires accepted { Accepted marks.old.replicas p.now }
    ensures flags { Flags marks.old.replicas (family marks.old.replicas f p.now) marks.new.words }
    ensures replicas { marks.new.replicas ≡ marks.old.replicas }
{
    let n = marks.replicas;
    mark_sized(marks, f);
    mark_domains(marks, p.counted_domains());
    if p.has_probs() {
        mark_probable(&mut marks.words, p.probs_of(n), 0, 0, 1.0, p.threshold);
    }
}

// Flags the sets of exactly f replicas.
fn mark_sized<const WORDS: usize>(marks: &mut Marks<WORDS>, f: usize)
    ensures marked { Marked (2 ^ marks.old.replicas) (is_sized f) marks.old.words marks.new.words }
    ensures replicas { marks.new.replicas ≡ marks.old.replicas }
{
    for m in 0..marks.sets() {
        if bitmap::count(m as u64) == f {
            marks.put(m);
        }
    }
}

// Flags each domain.
fn mark_domains<const WORDS: usize>(marks: &mut Marks<WORDS>, domains: &[u64])
    requires { list_all (is_mask marks.old.replicas) domains.now ≡ true }
    ensures marked { Marked (2 ^ marks.old.replicas) (is_among domains.now) marks.old.words marks.new.words }
    ensures replicas { marks.new.replicas ≡ marks.old.replicas }
{
    for domain in domains {
        marks.put(*domain as usize);
    }
}

// Flags each probable set that has the members of `mask` below `next` and some member from `next` on; p is the product for the members of
// `mask`.
// Where a product is below the threshold it goes no further: a factor from 0 to 1 never raises a product.
// Kept as it is: tried over Marks<WORDS>, the proof did not close (a recursion in a generic function), so it takes the words of the table.
fn mark_probable(words: &mut [u64], probs: &[f64], next: usize, mask: usize, p: f64, threshold: f64)
    requires few { length probs.now ≤ 16 }
    requires room { 2 ^ length probs.now ≤ 64 * length words.old }
    requires below { mask < 2 ^ next }
    requires fine { Fine p }
    requires probabilities { list_all is_probability probs.now ≡ true }
    ensures { Marked (2 ^ length probs.now) (is_hit probs.now next mask p threshold) words.old words.new }
{
    if next < probs.len() {
        mark_probable(words, probs, next + 1, mask, p, threshold);
        let q = p * probs[next];
        if threshold <= q {
            let m = mask + (1usize << next);
            marks::put(words, m);
            mark_probable(words, probs, next + 1, m, q, threshold);
        }
    }
}
