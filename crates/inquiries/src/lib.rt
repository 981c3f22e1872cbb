// What a name server asks of a lent table beside the calls: whether it keeps the rules, a pair by its suffix or by a key's name, a key's name, a pair's contents,
// what a call did to its keys.
// Every value of every argument is accepted, lent slices of any length included; an inquiry ends with an answer or a refusal of its list, takes no time and
// changes nothing. The contracts are equations with the crate model's Inquiries, on the table that the lent words and octets show.
#![tactic(auto)]

ghost use Rattle.std.specs.Prelude.{true, cond, ◌≡◌, ◌<◌, ◌≤◌, ◌^◌, eqb, ◌++◌, length, take};
ghost use Rattle.model.specs.Names.{key_name};
ghost use Rattle.model.specs.Tables.{table_rules};
ghost use Rattle.model.specs.Inquiries.{tested, unfound, pair_named, pair_suffixed, pair_of_key, below_next, spelt_in, key_name_in, key_name_of, unshown, pair_shown, adopted_serial, waiting_serial, unless, moves_of};
ghost use Rattle.store.specs.Layout.{keys_at, pair_words, layout_rule, table_of};
ghost use Rattle.results.specs.Numbers.{number_of};
ghost use Rattle.inquiries.specs.Inquired.{PairTold, Spells};

use model::{FoundPair, Keys, Moves, Pair, ShownPair};
use results::Refusal;

// What an inquiry that writes octets returns: its number, and how many it wrote.
#[derive(Clone, Copy)]
pub struct Spelling {
    pub number: u64,
    pub length: u64,
}

// ── The table ───────────────────────────────────────────────────────────────────────────────────────────────────────

// TABLE (1) where a table rule is broken, else 0.
pub fn test(words: &[u64], suffixes: &[u8]) -> u64
    ensures { result ≡ tested (table_of words.now suffixes.now) }
{
    if ruling::rules_ok(words, suffixes) {
        return 0;
    }
    Refusal::Table.number()
}

// ── A pair by a name ────────────────────────────────────────────────────────────────────────────────────────────────

#[tactic(auto, unfolding(model::specs::Inquiries::unfound))]
fn not_found(refusal: Refusal) -> FoundPair
    ensures { result ≡ unfound (number_of refusal) }
{
    FoundPair {
        number: refusal.number(),
        pair: 0,
    }
}

// NOPAIR, or the pair with this suffix.
fn find_pair(words: &[u64], suffixes: &[u8], name: &[u8]) -> FoundPair
    requires { layout_rule words.now suffixes.now ≡ true }
    ensures { result ≡ pair_named (table_of words.now suffixes.now) name.now }
{
    match searching::find(words, suffixes, name) {
        Ok(row) => FoundPair {
            number: 0,
            pair: row as u64 + 1,
        },
        Err(_) => not_found(Refusal::NoPair),
    }
}

// The pair with this suffix. Refused, in this order, with TABLE (1), NOPAIR (9).
pub fn pair_of_suffix(words: &[u64], suffixes: &[u8], suffix: &[u8]) -> FoundPair
    ensures { result ≡ pair_suffixed (table_of words.now suffixes.now) suffix.now }
{
    if !ruling::rules_ok(words, suffixes) {
        return not_found(Refusal::Table);
    }
    find_pair(words, suffixes, suffix)
}

// The pair whose suffix follows the first label of this name, whether or not such a key exists. Refused, in this order, with TABLE (1), NAME (12), NOPAIR (9).
pub fn pair_of_key(words: &[u64], suffixes: &[u8], name: &[u8]) -> FoundPair
    ensures { result ≡ pair_of_key (table_of words.now suffixes.now) name.now }
{
    if !ruling::rules_ok(words, suffixes) {
        return not_found(Refusal::Table);
    }
    if !names::wire_name(name) {
        return not_found(Refusal::Name);
    }
    find_pair(words, suffixes, searching::after_label(name))
}

// ── A pair by its number ────────────────────────────────────────────────────────────────────────────────────────────

#[tactic(auto, unfolding(model::specs::Inquiries::unshown, model::specs::Tables::no_pair))]
fn not_shown(refusal: Refusal) -> ShownPair
    ensures { result ≡ unshown (number_of refusal) }
{
    ShownPair {
        number: refusal.number(),
        pair: Pair {
            lifetime: 0,
            fresh: 0,
            next_serial: 0,
            keys: Keys::Empty,
        },
    }
}

// The pair of this number, but for its suffix. Refused, in this order, with TABLE (1), NOPAIR (9).
pub fn show_pair(words: &[u64], suffixes: &[u8], pair: u64) -> ShownPair
    ensures { result ≡ pair_shown (table_of words.now suffixes.now) pair }
{
    if !ruling::rules_ok(words, suffixes) {
        return not_shown(Refusal::Table);
    }
    if !outcomes::is_enrolled(words, suffixes, pair) {
        return not_shown(Refusal::NoPair);
    }
    let p = outcomes::pair_of(words, suffixes, pair as usize - 1);
    ShownPair { number: 0, pair: p }
}

// The pair p as fourteen words.
fn pair_into(w: &mut [u64], p: Pair)
    requires { length w.old ≡ 14 }
    ensures { w.new ≡ pair_words p }
{
    let a = store::word_into(w, 0, p.lifetime);
    let b = store::word_into(w, a, p.fresh);
    let c = store::word_into(w, b, p.next_serial);
    store::keys_into(w, c, p.keys);
}

// The pair of this number as fourteen words: lifetime, fresh period, next serial, and its keys as in the layout of a store. Refused as above, with zeros.
pub fn pair_words(words: &[u64], suffixes: &[u8], pair: u64, shown: &mut [u64; 14]) -> u64
    ensures { PairTold (pair_shown (table_of words.now suffixes.now) pair) shown.new result }
{
    *shown = [0u64; 14];
    let s = show_pair(words, suffixes, pair);
    pair_into(&mut shown[..], s.pair);
    s.number
}

// ── A pair before and after a call ──────────────────────────────────────────────────────────────────────────────────

// The serials of the keys in a pair's fourteen words; 0 where there is no such key.
#[tactic(auto, unfolding(model::specs::Inquiries::adopted_serial, store::specs::Layout::keys_at, store::specs::Layout::key_at))]
fn adopted_serial(w: &[u64; 14]) -> u64
    ensures { result ≡ adopted_serial (keys_at w.now 3) }
{
    if w[3] == 0 { 0 } else { w[4] }
}

#[tactic(auto, unfolding(model::specs::Inquiries::waiting_serial, store::specs::Layout::keys_at, store::specs::Layout::key_at))]
fn waiting_serial(w: &[u64; 14]) -> u64
    ensures { result ≡ waiting_serial (keys_at w.now 3) }
{
    if w[3] < 2 { 0 } else { w[9] }
}

// A serial, but 0 where it is among the keys in these words.
fn unless_among(w: &[u64; 14], serial: u64) -> u64
    ensures { result ≡ unless (keys_at w.now 3) serial }
{
    if serial == adopted_serial(w) {
        return 0;
    }
    if serial == waiting_serial(w) {
        return 0;
    }
    serial
}

fn if_same(x: u64, y: u64) -> u64
    ensures { result ≡ cond (eqb x y) x 0 }
{
    if x == y { x } else { 0 }
}

// What a call did to a pair's keys, from the pair's fourteen words before it and after it.
pub fn moves(before: &[u64; 14], after: &[u64; 14]) -> Moves
    ensures { result ≡ moves_of (keys_at before.now 3) (keys_at after.now 3) }
{
    let adopted = adopted_serial(after);
    let waiting = waiting_serial(after);
    let former = adopted_serial(before);
    let offered = waiting_serial(before);
    Moves {
        made: unless_among(before, adopted).max(unless_among(before, waiting)),
        adopted: if_same(offered, adopted),
        ended: unless_among(after, former),
        dropped: unless_among(after, offered),
    }
}

// ── A key's name ────────────────────────────────────────────────────────────────────────────────────────────────────

fn not_spelt(refusal: Refusal) -> Spelling
    ensures { result ≡ record { number = number_of refusal; length = 0 } }
{
    Spelling {
        number: refusal.number(),
        length: 0,
    }
}

fn below_next(p: Pair, serial: u64) -> bool
    ensures { result ≡ below_next p serial }
{
    (1 <= serial) & (serial < p.next_serial)
}

// ROOM, or the first n octets of a label, and then a suffix.
fn join(out: &mut [u8], label: &[u8; 11], n: usize, suffix: &[u8]) -> Spelling
    requires { (n ≤ 11) × (length suffix.now ≤ 128) }
    ensures { Spells (spelt_in (length out.old) (take n label.now ++ suffix.now)) out.old out.new result }
{
    if out.len() < n + suffix.len() {
        return not_spelt(Refusal::Room);
    }
    let next = octets::all_into(out, 0, &label[..n]);
    let end = octets::all_into(out, next, suffix);
    Spelling {
        number: 0,
        length: end as u64,
    }
}

// ROOM, or the name of the key with this serial, in the pair with this suffix.
fn spell(out: &mut [u8], serial: u64, suffix: &[u8]) -> Spelling
    requires { (serial < 2 ^ 32) × (length suffix.now ≤ 128) }
    ensures { Spells (spelt_in (length out.old) (key_name serial suffix.now)) out.old out.new result }
{
    let mut label = [0u8; 11];
    let n = names::serial_label(serial, &mut label);
    join(out, &label, n, suffix)
}

// NOKEY, then as above, of the pair of a row.
fn key_name_in(words: &[u64], suffixes: &[u8], row: usize, serial: u64, out: &mut [u8]) -> Spelling
    requires { (table_rules (table_of words.now suffixes.now) ≡ true) × (row < length (table_of words.now suffixes.now).rows) }
    ensures { Spells (key_name_in (table_of words.now suffixes.now) serial (length out.old) row) out.old out.new result }
{
    if !below_next(outcomes::pair_of(words, suffixes, row), serial) {
        return not_spelt(Refusal::NoKey);
    }
    spell(out, serial, outcomes::suffix_of(words, suffixes, row))
}

// The name of the key with this serial, there or gone, in the pair of this number, into the first octets of `out`. Refused, in this order, with TABLE (1),
// NOPAIR (9), NOKEY (10: it is 0, or not below the pair's next one), ROOM (8).
pub fn key_name(words: &[u64], suffixes: &[u8], pair: u64, serial: u64, out: &mut [u8]) -> Spelling
    ensures { Spells (key_name_of (table_of words.now suffixes.now) pair serial (length out.old)) out.old out.new result }
{
    if !ruling::rules_ok(words, suffixes) {
        return not_spelt(Refusal::Table);
    }
    if !outcomes::is_enrolled(words, suffixes, pair) {
        return not_spelt(Refusal::NoPair);
    }
    key_name_in(words, suffixes, pair as usize - 1, serial, out)
}
