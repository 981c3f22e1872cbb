// A batch of messages on a lent table (02, CR 4): TABLE and BATCH once, then the message calls of its items in turn, each reply laid behind the one before. Every
// value of every argument is accepted. The contract is an equation with the crate model's Batches, on the table that the lent words and octets show.
#![tactic(auto)]

ghost use Rattle.std.specs.Prelude.{◌≡◌, true, ◌&&◌, List, ℕ, ◌+◌, ◌*◌, ◌-◌, ◌≤◌, leb, length};
ghost use Rattle.model.specs.Tables.{table_rules};
ghost use Rattle.model.specs.Calls.{called};
ghost use Rattle.model.specs.Batches.{items_inside, batch_ok, item_call};
ghost use Rattle.octets.specs.Wrote.{Wrote};
ghost use Rattle.store.specs.Layout.{table_of};
ghost use Rattle.results.specs.Words.{answer_words};
ghost use Rattle.batches.specs.Batched.{item_at, items_in, item_owner, BatchShows, ItemFits, ItemShows, Behind, TurnShows};

use model::{Answer, BatchItem, Span, Verdicts};

// ── Items and answers in words ──────────────────────────────────────────────────────────────────────────────────────

fn item_at(items: &[u64], i: usize) -> BatchItem
    requires { i * 9 + 9 ≤ length items.now }
    ensures { result ≡ item_at items.now i }
{
    let k = i * 9;
    let message = Span {
        from: items[k + 2] as usize,
        size: items[k + 3] as usize,
    };
    let offer = Span {
        from: items[k + 4] as usize,
        size: items[k + 5] as usize,
    };
    let second = Span {
        from: items[k + 7] as usize,
        size: items[k + 8] as usize,
    };
    BatchItem {
        time: items[k],
        good: items[k + 1] == 1,
        message,
        offer,
        fits: items[k + 6] == 1,
        second,
    }
}

// An answer in seven words from `at` on.
fn answer_into(answers: &mut [u64], at: usize, a: Answer)
    requires { at + 7 ≤ length answers.old }
    ensures { Wrote (answer_words a) at answers.old answers.new (at + 7) }
{
    let skew = results::skew_word(a.skew);
    let i = store::five_into(answers, at, a.number, a.length, a.error, skew, a.pair);
    let j = store::word_into(answers, i, a.serial);
    store::word_into(answers, j, a.place);
}

// ── BATCH ───────────────────────────────────────────────────────────────────────────────────────────────────────────

// Whether a part lies in n octets.
fn is_inside(s: Span, n: usize) -> bool
    ensures { result ≡ leb (s.from + s.size) n }
{
    s.size <= n && s.from <= n - s.size
}

fn is_item_inside(x: BatchItem, n: usize) -> bool
    ensures { result ≡ ((leb (x.message.from + x.message.size) n && leb (x.offer.from + x.offer.size) n) && leb (x.second.from + x.second.size) n) }
{
    is_inside(x.message, n) & is_inside(x.offer, n) & is_inside(x.second, n)
}

// Whether the messages, the offers and the lent records of all items lie in n octets.
fn items_inside(items: &[u64], count: usize, n: usize) -> bool
    requires { (length items.now ≡ 576) × (count ≤ 64) }
    ensures { (octets : List ℕ) → length octets ≡ n → result ≡ items_inside octets (items_in items.now count) }
{
    for i in 0..count {
        if !is_item_inside(item_at(items, i), n) {
            return false;
        }
    }
    true
}

fn batch_ok(items: &[u64], count: u64, octets: &[u8]) -> bool
    requires { length items.now ≡ 576 }
    ensures { result ≡ batch_ok octets.now (items_in items.now count) }
{
    if 64 < count {
        return false;
    }
    items_inside(items, count as usize, octets.len())
}

// ── The items ───────────────────────────────────────────────────────────────────────────────────────────────────────

// The message call of an item, lent the whole of `reply`.
fn serve_item(
    words: &mut [u64],
    suffixes: &[u8],
    x: BatchItem,
    octets: &[u8],
    reply: &mut [u8],
) -> Answer
    requires { (table_rules (table_of words.old suffixes.now) ≡ true) × ItemFits octets.now x }
    ensures { ItemShows (called (table_of words.old suffixes.now) (item_call octets.now (length reply.old) x))
        (item_owner octets.now words.old suffixes.now x) words.old suffixes.now words.new reply.old reply.new result }
{
    let message = records::part_of(octets, x.message);
    let offer = records::part_of(octets, x.offer);
    let second = records::part_of(octets, x.second);
    let verdicts = Verdicts {
        now: x.time,
        good: x.good,
        fits: x.fits,
    };
    server::message_ruled(words, suffixes, verdicts, message, offer, second, reply)
}

// The same, lent the room behind the `used` octets that the replies before take.
fn serve_behind(
    words: &mut [u64],
    suffixes: &[u8],
    x: BatchItem,
    octets: &[u8],
    replies: &mut [u8],
    used: usize,
) -> Answer
    requires { (table_rules (table_of words.old suffixes.now) ≡ true) × ItemFits octets.now x × (used ≤ length replies.old) }
    ensures { Behind (called (table_of words.old suffixes.now) (item_call octets.now (length replies.old - used) x))
        (item_owner octets.now words.old suffixes.now x) used words.old suffixes.now words.new replies.old replies.new result }
{
    serve_item(words, suffixes, x, octets, &mut replies[used..])
}

// All items in turn, each on the table that the one before leaves.
fn in_turn(
    words: &mut [u64],
    suffixes: &[u8],
    items: &[u64],
    count: usize,
    octets: &[u8],
    answers: &mut [u64],
    replies: &mut [u8],
)
    requires { (table_rules (table_of words.old suffixes.now) ≡ true) × (length items.now ≡ 576) × (length answers.old ≡ 448) × (batch_ok octets.now (items_in items.now count) ≡ true) }
    ensures { TurnShows octets.now (items_in items.now count)
        words.old suffixes.now words.new answers.old answers.new replies.old replies.new }
{
    let mut used: usize = 0;
    for i in 0..count {
        let x = item_at(items, i);
        let a = serve_behind(words, suffixes, x, octets, replies, used);
        answer_into(answers, i * 7, a);
        used += a.length as usize;
    }
}

// ── The call ────────────────────────────────────────────────────────────────────────────────────────────────────────

// Batch: the message calls of the first `count` items, up to 64, in turn on one table. Their messages, offers and lent records stand in `octets`; each item is told in seven
// words of `answers`, and the replies are laid one after another in the first octets of `replies`, each call lent the room that is left. Refused whole, in this order,
// with TABLE (1), BATCH (17): then nothing changes.
pub fn batch(
    words: &mut [u64],
    suffixes: &[u8],
    count: u64,
    items: &[u64; 576],
    octets: &[u8],
    answers: &mut [u64; 448],
    replies: &mut [u8],
) -> u64
    ensures { BatchShows octets.now (items_in items.now count)
        words.old suffixes.now words.new answers.old answers.new replies.old replies.new result }
{
    if !ruling::rules_ok(words, suffixes) {
        return 1;
    }
    let lent_items = &items[..];
    if !batch_ok(lent_items, count, octets) {
        return 17;
    }
    in_turn(
        words,
        suffixes,
        lent_items,
        count as usize,
        octets,
        &mut answers[..],
        replies,
    );
    0
}
