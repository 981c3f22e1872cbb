// What the calls on a lent table share (document 01, "The desk's business"): their ends, the refusals that come first, the pair of a row, and what the numbers
// that an operator gives stand for. Nothing here or above says where a row lies.
#![tactic(auto)]

ghost use Rattle.std.specs.Prelude.{true, ◌&&◌, ◌≡◌, leb, length, ◌<◌};
ghost use Rattle.model.specs.Tables.{suffix_at, pair_at, table_rules};
ghost use Rattle.model.specs.Calls.{refusal, done};
ghost use Rattle.store.specs.Layout.{layout_rule, table_of};
ghost use Rattle.outcomes.specs.Gate.{number_in, First, Entered};
ghost use Rattle.outcomes.specs.Ends.{answer_in, Settled};

use model::{Answer, Pair};
use results::Refusal;

// ── Answers ─────────────────────────────────────────────────────────────────────────────────────────────────────────

#[tactic(auto, unfolding(model::specs::Calls::refusal, model::specs::Calls::refusal_at))]
pub fn refused(n: u64) -> Answer
    ensures { result ≡ (refusal n).answer }
{
    results::bare(n, 0, 0, 0)
}

#[tactic(auto, unfolding(model::specs::Calls::done, model::specs::Calls::DONE))]
pub fn finished(pair: u64, serial: u64) -> Answer
    ensures { result ≡ (done pair serial).answer }
{
    results::bare(0, pair, serial, 0)
}

// The answer of a call that is done, or refused.
pub fn answered(r: Result<Answer, Refusal>) -> Answer
    ensures { result ≡ answer_in r }
{
    match r {
        Ok(a) => a,
        Err(refusal) => refused(refusal.number()),
    }
}

// ── The refusals that come first ────────────────────────────────────────────────────────────────────────────────────

// TIME or CLOCK, where the table keeps the rules.
fn late(words: &[u64], suffixes: &[u8], time: u64) -> Result<(), Refusal>
    requires { table_rules (table_of words.now suffixes.now) ≡ true }
    ensures { First words.now suffixes.now time (number_in result) }
{
    if 0xffff_8000_0000 <= time {
        return Err(Refusal::Time);
    }
    if time < words[0] {
        return Err(Refusal::Clock);
    }
    Ok(())
}

// The gate of a call with a time, where the table keeps the rules: TIME or CLOCK, with every word left; else the clock is set.
pub fn enter_ruled(words: &mut [u64], suffixes: &[u8], time: u64) -> Result<(), Refusal>
    requires { table_rules (table_of words.old suffixes.now) ≡ true }
    ensures { Entered words.old suffixes.now time words.new (number_in result) }
{
    late(words, suffixes, time)?;
    store::set_clock(words, time);
    Ok(())
}

// The gate of every call with a time: TABLE first.
pub fn enter(words: &mut [u64], suffixes: &[u8], time: u64) -> Result<(), Refusal>
    ensures { Entered words.old suffixes.now time words.new (number_in result) }
{
    if !ruling::rules_ok(words, suffixes) {
        return Err(Refusal::Table);
    }
    enter_ruled(words, suffixes, time)
}

// ── Rows ────────────────────────────────────────────────────────────────────────────────────────────────────────────

// Whether a pair has this number.
pub fn is_enrolled(words: &[u64], suffixes: &[u8], pair: u64) -> bool
    requires { layout_rule words.now suffixes.now ≡ true }
    ensures { result ≡ (leb 1 pair && leb pair (length (table_of words.now suffixes.now).rows)) }
{
    (1 <= pair) & (pair <= words[1])
}

// The pair of a row.
pub fn pair_of(words: &[u64], suffixes: &[u8], row: usize) -> Pair
    requires { (layout_rule words.now suffixes.now ≡ true) × (row < length (table_of words.now suffixes.now).rows) }
    ensures { result ≡ pair_at (table_of words.now suffixes.now) row }
{
    store::pair_at(words, store::place_of(words, row))
}

// The suffix of a row, lent.
pub fn suffix_of<'a>(words: &[u64], suffixes: &'a [u8], row: usize) -> &'a [u8]
    requires { (layout_rule words.now suffixes.now ≡ true) × (row < length (table_of words.now suffixes.now).rows) }
    ensures { result.now ≡ suffix_at (table_of words.now suffixes.now) row }
{
    store::suffix_at(words, suffixes, store::place_of(words, row))
}

// Another pair in a row: the call is done.
pub fn settle(words: &mut [u64], suffixes: &[u8], row: usize, p: Pair, serial: u64) -> Answer
    requires { (layout_rule words.old suffixes.now ≡ true) × (row < length (table_of words.old suffixes.now).rows) }
    ensures { Settled row p serial words.old suffixes.now words.new result }
{
    let place = store::place_of(words, row);
    store::store_pair(words, place, p);
    finished(row as u64 + 1, serial)
}
