// The layout text of the initial assignment (parse_init_assignment): runs of shards, or segments that name each replica's shards.
#![tactic(auto)]

ghost use Rattle.std.specs.Prelude.{◌≡◌, ◌+◌, ◌*◌, ◌^◌, ◌<◌, ◌≤◌, length};
ghost use Rattle.std.specs.Int.Bits.{bit_or};
ghost use Rattle.rows.specs.Row.{row_of, row_in, with_row, first_rows};
ghost use Rattle.refusals.specs.Outcome.{accepted, left};
ghost use Rattle.refusals.specs.Limits.{most_shards};
ghost use Rattle.refusals.specs.Refused.{refusal_of, outcome_of};
ghost use Rattle.numerals.specs.Text.{split};
ghost use Rattle.numerals.specs.Read.{read_each};
ghost use Rattle.layout_text.specs.LayoutText.{runs_of, length_of, segment_in, segments_of, input_refusal, table_refusal, in_table, init_table, answer};

use bitmap::ReplicaId;
use refusals::{Refusal, unless};
use rows::{Row, ShardId, ShardSet};

// The most bytes that a layout text has.
const MOST_BYTES: usize = 16384;

// The numbers of an initial assignment, which have been tested.
#[derive(Clone, Copy)]
struct Initial {
    population: usize,
    data_shards: usize,
    total: usize,
    ghost some_replicas: { 0 < population },
    ghost few_replicas: { population ≤ 16 },
    ghost some_shards: { 0 < total },
    ghost few_shards: { total ≤ most_shards },
}

// The rows of n replicas that a layout text says, written to the lent table, four words a row.
pub fn parse_init_assignment(
    n: usize,
    d: usize,
    total: usize,
    s: &[u8],
    rows: &mut [u64],
) -> Result<(), Refusal>
    ensures { (answer result rows.new ≡ init_table n d total s.now (length rows.old))
        × (rows.new ≡ left (init_table n d total s.now (length rows.old)) rows.old) }
{
    check_input(n, d, total, s)?;
    let initial = Initial {
        population: n,
        data_shards: d,
        total,
    };
    match initial.run_length(s) {
        Ok(k) => initial.write_runs(k, rows),
        Err(_) => initial.write_segments(s, rows),
    }
}

// What refuses before the text is read.
#[tactic(auto, unfolding(crate::specs::LayoutText::input_refusal))]
fn check_input(n: usize, d: usize, total: usize, s: &[u8]) -> Result<(), Refusal>
    ensures { refusal_of result ≡ input_refusal n d total s.now }
{
    unless(refusals::is_population(n), Refusal::Population)?;
    unless(refusals::is_shards(d, total), Refusal::Shards)?;
    unless(numerals::is_text(s, MOST_BYTES), Refusal::Text)
}

impl Initial {
    // The length of the runs, where the text gives one.
    #[tactic(auto, unfolding(crate::specs::LayoutText::length_of))]
    fn run_length(self, s: &[u8]) -> Result<usize, Refusal>
        ensures { outcome_of result ≡ length_of self.population self.data_shards self.total s.now }
    {
        let share = self.total / self.population;
        if s.is_empty() {
            return Ok(share);
        }
        let k = numerals::read_whole(s)?;
        unless(share <= k && k <= self.data_shards, Refusal::Layout)?;
        Ok(k)
    }

    // Runs of k shards, straight into the lent table: nothing but the table can refuse them.
    fn write_runs(self, k: usize, rows: &mut [u64]) -> Result<(), Refusal>
        requires { k ≤ self.total }
        ensures { (answer result rows.new ≡ in_table self.population self.total (length rows.old) (accepted (runs_of self.population self.total k)))
            × (rows.new ≡ left (in_table self.population self.total (length rows.old) (accepted (runs_of self.population self.total k))) rows.old) }
    {
        self.check_table(rows.len())?;
        self.runs(k, rows);
        Ok(())
    }

    // Segments, by way of a table of their own: the last of them may be at fault.
    fn write_segments(self, s: &[u8], rows: &mut [u64]) -> Result<(), Refusal>
        ensures { (answer result rows.new ≡ in_table self.population self.total (length rows.old) (segments_of self.population self.total s.now))
            × (rows.new ≡ left (in_table self.population self.total (length rows.old) (segments_of self.population self.total s.now)) rows.old) }
    {
        let mut words = [0u64; 64];
        self.read_segments(s, &mut words)?;
        self.check_table(rows.len())?;
        bitmap::copy(&words, rows);
        Ok(())
    }

    // What refuses after the text is read.
    #[tactic(auto, unfolding(crate::specs::LayoutText::table_refusal))]
    fn check_table(self, len: usize) -> Result<(), Refusal>
        ensures { refusal_of result ≡ table_refusal self.population self.total len }
    {
        unless(self.total % self.population == 0, Refusal::Multiple)?;
        unless(refusals::is_table(self.population, len), Refusal::Table)
    }

    // Runs of k shards, one a row.
    fn runs(self, k: usize, words: &mut [u64])
        requires { (k ≤ self.total) × (self.population * 4 ≤ length words.old) }
        ensures { first_rows self.population words.new ≡ runs_of self.population self.total k }
    {
        let share = self.total / self.population;
        for r in 0..self.population {
            Row::run_modulo(ShardId(r * share), k, self.total).put(words, r);
        }
    }

    // The segments joined by `/`, each united with the row that the words hold.
    fn read_segments(self, s: &[u8], words: &mut [u64; 64]) -> Result<(), Refusal>
        ensures { answer result (first_rows self.population words.new) ≡ read_each (segment_in self.population self.total) (first_rows self.population words.old) (split 47 s.now) }
    {
        for q in numerals::split(s, b'/') {
            self.read_segment(q, words)?;
        }
        Ok(())
    }

    // `replica:shard,shard`.
    fn read_segment(self, s: &[u8], words: &mut [u64; 64]) -> Result<(), Refusal>
        ensures { answer result (first_rows self.population words.new) ≡ segment_in self.population self.total (first_rows self.population words.old) s.now }
    {
        let c = numerals::find(s, b':');
        if c == s.len() {
            return Err(Refusal::Layout);
        }
        let r = numerals::read_below(numerals::upto(s, c), self.population)?;
        let row = numerals::read_shards(numerals::after(s, c + 1), false, self.total)?;
        unite(row, words, ReplicaId(r));
        Ok(())
    }
}

// Adds the shards of a row to those that the words hold for the replica r. A part: the words have its row.
fn unite(row: Row, words: &mut [u64], r: ReplicaId)
    requires { r.0 * 4 + 4 ≤ length words.old }
    ensures words { words.new ≡ with_row words.old r.0 (bit_or (row_in words.old r.0) (row_of row)) }
    ensures room { bit_or (row_in words.old r.0) (row_of row) < 2 ^ 256 }
{
    let k = r.0;
    Row::read_row(words, k).union(row).put(words, k);
}
