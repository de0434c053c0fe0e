// The text of a reliability profile (ReliabilityProfile::parse).
#![tactic(auto)]

ghost use Rattle.std.specs.Prelude.{◌≡◌, ◌||◌, ◌+◌, ◌^◌, ◌≤◌, ◌<◌, ◌∷◌, ◌++◌, [], List, Float};
ghost use Rattle.refusals.specs.Outcome.{accepted, and_then};
ghost use Rattle.refusals.specs.Refused.{outcome_of};
ghost use Rattle.numerals.specs.Text.{is_empty, is_same, split};
ghost use Rattle.numerals.specs.Read.{read_each};
ghost use Rattle.profile_text.specs.ProfileText.{nothing, domains_in, decimals_of, threshold_of, probs_in, none_name, named_in, mechanism_in, profile_of, listed, answer};

use profiles::Profile;
use refusals::{Refusal, unless};

// The most bytes that a profile's text has.
const MOST_BYTES: usize = 4096;

// A list of decimals: how many, and the first 16 of them.
// Kept as it is: a rule of the project (no heap, fixed memory) needs the array, which the count may pass.
#[derive(Clone, Copy)]
struct Decimals {
    count: usize,
    values: [f64; 16],
}

// What a profile is read for: a population that has been tested.
#[derive(Clone, Copy)]
struct Reader {
    population: usize,
    ghost few_replicas: { population ≤ 16 },
}

// The profile of n replicas that a text says.
#[tactic(auto, unfolding(crate::specs::ProfileText::profile_of))]
pub fn parse_profile(n: usize, s: &[u8]) -> Result<Profile, Refusal>
    ensures { outcome_of result ≡ profile_of n s.now }
{
    unless(refusals::is_population(n), Refusal::Population)?;
    unless(numerals::is_text(s, MOST_BYTES), Refusal::Text)?;
    let mut p = nothing();
    let reader = Reader { population: n };
    reader.read_mechanisms(&mut p, s)?;
    Ok(p)
}

impl Reader {
    // The mechanisms between `;`, from the left, each added to the profile.
    fn read_mechanisms(self, p: &mut Profile, s: &[u8]) -> Result<(), Refusal>
        ensures { answer result p.new ≡ read_each (mechanism_in self.population) p.old (split 59 s.now) }
    {
        for q in numerals::split(s, b';') {
            self.read_mechanism(p, q)?;
        }
        Ok(())
    }

    // A mechanism: its name ends at the first colon. An empty one and `none` are skipped.
    fn read_mechanism(self, p: &mut Profile, s: &[u8]) -> Result<(), Refusal>
        ensures { answer result p.new ≡ mechanism_in self.population p.old s.now }
    {
        let t = numerals::trimmed(s);
        if is_skipped(t) {
            return Ok(());
        }
        let c = numerals::find(t, b':');
        self.read_named(
            p,
            numerals::trimmed(numerals::upto(t, c)),
            numerals::past(t, c),
        )
    }

    // A mechanism by its name, with what follows its colon.
    #[tactic(auto, using(crate::proofs::Mechanisms::named_domains, crate::proofs::Mechanisms::named_probs, crate::proofs::Mechanisms::named_runtime, crate::proofs::Mechanisms::named_other), unfolding(crate::specs::ProfileText::with_runtime))]
    fn read_named(self, p: &mut Profile, name: &[u8], args: &[u8]) -> Result<(), Refusal>
        ensures { answer result p.new ≡ named_in self.population p.old name.now args.now }
    {
        match name {
            b"domains" => self.read_domains(p, args),
            b"probs" => self.read_probs(p, args),
            b"runtime" => {
                p.runtime = true;
                Ok(())
            }
            _ => Err(Refusal::Mechanism),
        }
    }

    // The sets between `/`, each added to the domains.
    fn read_domains(self, p: &mut Profile, args: &[u8]) -> Result<(), Refusal>
        ensures { answer result p.new ≡ domains_in self.population p.old args.now }
    {
        for q in numerals::split(args, b'/') {
            let k = p.domain_count;
            unless(k < 64, Refusal::Domains)?;
            let m = numerals::read_members(q, true, self.population)?;
            p.domains[k] = m;
            p.domain_count = k + 1;
        }
        Ok(())
    }

    // The decimals, and the threshold after the first `@`; they are tested after all have been read.
    fn read_probs(self, p: &mut Profile, args: &[u8]) -> Result<(), Refusal>
        ensures { answer result p.new ≡ probs_in self.population p.old args.now }
    {
        let c = numerals::find(args, b'@');
        let list = read_decimals(numerals::upto(args, c))?;
        let threshold = read_threshold(numerals::past(args, c))?;
        let values = list.values;
        p.prob_count = list.count;
        p.probs = values;
        p.threshold = threshold;
        unless(p.probs_fit(self.population), Refusal::Probabilities)
    }
}

// Whether a trimmed mechanism is empty or `none`.
fn is_skipped(t: &[u8]) -> bool
    ensures { result ≡ (is_empty t.now || is_same t.now none_name) }
{
    t.is_empty() || numerals::same(t, b"none")
}

// Decimals between commas.
fn read_decimals(s: &[u8]) -> Result<Decimals, Refusal>
    ensures { outcome_of result ≡ and_then (decimals_of s.now) (λ ps. accepted (listed ps)) }
{
    let mut list = Decimals {
        count: 0,
        values: [0.0; 16],
    };
    for q in numerals::split(s, b',') {
        let x = decimals::read_decimal(numerals::trimmed(q))?;
        push(&mut list, x);
    }
    Ok(list)
}

// One decimal more.
// Kept as it is: `values.get_mut(count)` was tried, and did not prove: its contract does not say what the write leaves in the array.
fn push(list: &mut Decimals, x: f64)
    requires { list.old.count + 1 < 2 ^ 64 }
    ensures { (ps : List Float) → list.old ≡ listed ps → list.new ≡ listed (ps ++ (x ∷ [])) }
{
    if list.count < 16 {
        list.values[list.count] = x;
    }
    list.count += 1;
}

// A threshold; blank means 1e-3.
fn read_threshold(s: &[u8]) -> Result<f64, Refusal>
    ensures { outcome_of result ≡ threshold_of s.now }
{
    let t = numerals::trimmed(s);
    if t.is_empty() {
        return Ok(1e-3);
    }
    decimals::read_decimal(t)
}

// A profile that says nothing.
fn nothing() -> Profile
    ensures { result ≡ nothing }
{
    Profile {
        domain_count: 0,
        prob_count: 0,
        runtime: false,
        threshold: 0.0,
        probs: [0.0; 16],
        domains: [0; 64],
    }
}
