// What the lines of one pair of a listing say, line by line, and whether its row is kept (02, CR 7).
#![tactic(auto)]

ghost use Rattle.std.specs.Prelude.{true, ◌≡◌, ◌≤◌, length};
ghost use Rattle.model.specs.Loading.{says, drops, judged};
ghost use Rattle.model.proofs.Forward.{key_added};
ghost use Rattle.store.specs.Layout.{clock_of, layout_rule, table_of};
ghost use Rattle.entries.specs.Entries.{open_size, KeyAdded, Begun, entry_shown, PlaceFor, EntryJudged};

use model::{Keys, Pair, Stated};

// The lines of a pair so far: one does not read; or all do, the suffix has so many octets, and its keys are in the wrong number or order, or the pair is this.
#[derive(Clone, Copy)]
pub enum Open {
    Unread,
    Wrong(usize),
    Says(usize, Pair),
}

// A row that is kept: its place of the order, and how many octets its suffix has. (A reason to drop one is a number, as C is told it.)
#[derive(Clone, Copy)]
pub struct Kept {
    pub place: usize,
    pub size: usize,
    pub pair: Pair,
}

// ── What the lines say ──────────────────────────────────────────────────────────────────────────────────────────────

// A pair's keys with one more.
fn key_added(keys: Keys, k: Stated) -> Option<Keys>
    ensures { result ≡ key_added keys k }
{
    match (keys, k.adopted) {
        (Keys::Empty, true) => Some(Keys::Adopted(k.key)),
        (Keys::Adopted(a), false) => Some(Keys::Renewing(a, k.key)),
        _ => None,
    }
}

fn with_key(n: usize, p: Pair, k: Stated) -> Open
    ensures { KeyAdded (Open.Says n p) (Some k) result }
{
    match key_added(p.keys, k) {
        Some(keys) => Open::Says(n, Pair { keys, ..p }),
        None => Open::Wrong(n),
    }
}

// A `key` line more.
pub fn add_key(said: Open, line: Option<Stated>) -> Open
    ensures { KeyAdded said line result }
{
    match line {
        None => Open::Unread,
        Some(k) => match said {
            Open::Unread => Open::Unread,
            Open::Wrong(n) => Open::Wrong(n),
            Open::Says(n, p) => with_key(n, p, k),
        },
    }
}

// The line that starts a pair, which has no keys yet.
pub fn begin(line: Option<(usize, Pair)>) -> Open
    ensures { Begun line result }
{
    match line {
        Some((n, p)) => Open::Says(
            n,
            Pair {
                keys: Keys::Empty,
                ..p
            },
        ),
        None => Open::Unread,
    }
}

// ── Whether the row is kept ─────────────────────────────────────────────────────────────────────────────────────────

// TWIN, FULL, or the place of a row with this suffix.
fn place_for(words: &[u64], suffixes: &[u8], suffix: &[u8]) -> Result<usize, u64>
    requires { layout_rule words.now suffixes.now ≡ true }
    ensures { PlaceFor words.now suffixes.now suffix.now result }
{
    match searching::find(words, suffixes, suffix) {
        Ok(_) => Err(14),
        Err(place) => {
            if 64 <= words[1] {
                return Err(15);
            }
            Ok(place)
        }
    }
}

// TWIN, FULL, TABLE, or the row is kept.
fn judge_row(words: &[u64], suffixes: &[u8], suffix: &[u8], p: Pair) -> Result<Kept, u64>
    requires { layout_rule words.now suffixes.now ≡ true }
    ensures { EntryJudged words.now suffixes.now suffix.now (says suffix.now (Some p)) result }
{
    let place = place_for(words, suffixes, suffix)?;
    if rules::suffix_ok(suffix) & rules::pair_rule(p, words[0]) {
        return Ok(Kept {
            place,
            size: suffix.len(),
            pair: p,
        });
    }
    Err(1)
}

// A row whose keys are in the wrong number or order: TWIN, FULL, TABLE.
fn judge_wrong(words: &[u64], suffixes: &[u8], suffix: &[u8]) -> u64
    requires { layout_rule words.now suffixes.now ≡ true }
    ensures { judged (clock_of words.now) (table_of words.now suffixes.now).rows (says suffix.now None) ≡ drops result }
{
    match place_for(words, suffixes, suffix) {
        Err(reason) => reason,
        Ok(_) => 1,
    }
}

// The pair whose lines have ended, beside the rows of the table; its suffix stands at the front of the lent octets.
pub fn judge(words: &[u64], suffixes: &[u8], suffix: &[u8], said: Open) -> Result<Kept, u64>
    requires { (layout_rule words.now suffixes.now ≡ true) × (open_size said ≤ length suffix.now) }
    ensures { EntryJudged words.now suffixes.now suffix.now (entry_shown suffix.now said) result }
{
    match said {
        Open::Unread => Err(18),
        Open::Wrong(n) => Err(judge_wrong(words, suffixes, &suffix[..n])),
        Open::Says(n, p) => judge_row(words, suffixes, &suffix[..n], p),
    }
}
