// A listing read into a lent table (02, CR 7): loaded whole, or mended.
#![tactic(auto)]

ghost use Rattle.std.specs.Prelude.{true, ◌≡◌, [], ◌∷◌, ◌+◌, ◌≤◌, ◌<◌, length, drop};
ghost use Rattle.model.specs.Lines.{lines_of, is_key_line};
ghost use Rattle.model.specs.Loading.{reads_as, unread_from, first_unread, dropped_from, clocked_rule, no_rule, mend as mendOf};
ghost use Rattle.model.proofs.Forward.{loaded_from};
ghost use Rattle.store.specs.Layout.{layout_rule};
ghost use Rattle.entries.specs.Entries.{open_size};
ghost use Rattle.loading.specs.Walk.{Named, Settled, LineAdded, PairStarted, Turned, Walks, ReadsBelow, Reads};
ghost use Rattle.loading.specs.Loads.{end_of, Kept, Loads, Counted, refused_with, Mends};

use entries::Open;
use model::Clocked;

// The pair that is open: the number of its first line, how many lines it has so far and what they say; and how many lines were dropped before it.
#[derive(Clone, Copy)]
pub struct Walk {
    pub first: usize,
    pub lines: usize,
    pub dropped: usize,
    pub said: Open,
}

// How loading ends: its number, and the line that does not read, from 1, beside LINE.
#[derive(Clone, Copy)]
pub struct Ended {
    pub number: u64,
    pub line: u64,
}

// How mending ends: its number, the line beside LINE, and how many lines were dropped.
#[derive(Clone, Copy)]
pub struct Mending {
    pub number: u64,
    pub line: u64,
    pub dropped: usize,
}

// Why a text is not mended: its first line does not read, or breaks a rule.
#[derive(Clone, Copy)]
enum Refusal {
    Line,
    Table,
}

// ── Dropped lines ───────────────────────────────────────────────────────────────────────────────────────────────────

// One dropped line, behind so many others, where there is room.
fn name_line(named: &mut [u64], before: usize, line: usize, reason: u64)
    ensures { Named before (dropped_from reason line 1) named.old named.new }
{
    if named.len() / 2 <= before {
        return;
    }
    let next = store::word_into(named, 2 * before, line as u64);
    store::word_into(named, next, reason);
}

// So many lines from line `first` on.
fn name_lines(named: &mut [u64], before: usize, first: usize, lines: usize, reason: u64)
    requires { (before + lines < 0x1_0000_0000_0000_0000) × (first + lines < 0x1_0000_0000_0000_0000) }
    ensures { Named before (dropped_from reason first lines) named.old named.new }
{
    for i in 0..lines {
        name_line(named, before + i, first + i, reason);
    }
}

// ── Pairs ───────────────────────────────────────────────────────────────────────────────────────────────────────────

// The open pair has ended: its row is put in, or its lines are named. Returns how many lines have been dropped.
fn settle(
    words: &mut [u64],
    suffixes: &mut [u8],
    named: &mut [u64],
    suffix: &[u8],
    w: Walk,
) -> usize
    requires { (layout_rule words.old suffixes.old ≡ true) × (open_size w.said ≤ length suffix.now) × (w.dropped + w.lines < 0x1_0000_0000_0000_0000) × (w.first + w.lines < 0x1_0000_0000_0000_0000) }
    ensures { Settled words.old suffixes.old suffix.now named.old w words.new suffixes.new named.new result }
{
    match entries::judge(words, suffixes, suffix, w.said) {
        Ok(k) => {
            inserting::insert(words, suffixes, k.place, &suffix[..k.size], k.pair);
            w.dropped
        }
        Err(reason) => {
            name_lines(named, w.dropped, w.first, w.lines, reason);
            w.dropped + w.lines
        }
    }
}

// A line that starts a pair, after the open one has ended.
fn start_pair(suffix: &mut [u8], line: &[u8], first: usize, dropped: usize) -> Walk
    requires { 128 ≤ length suffix.old }
    ensures { PairStarted line.now suffix.old suffix.new first dropped result }
{
    let said = entries::begin(lines::read_pair(line, suffix));
    Walk {
        first,
        lines: 1,
        dropped,
        said,
    }
}

// A `key` line of the open pair.
fn add_line(line: &[u8], w: Walk) -> Walk
    requires { w.lines + 1 < 0x1_0000_0000_0000_0000 }
    ensures { LineAdded line.now w result }
{
    Walk {
        lines: w.lines + 1,
        said: entries::add_key(w.said, lines::read_key(line)),
        ..w
    }
}

// One line more.
fn turn(
    words: &mut [u64],
    suffixes: &mut [u8],
    named: &mut [u64],
    suffix: &mut [u8],
    line: &[u8],
    w: Walk,
) -> Walk
    requires { (layout_rule words.old suffixes.old ≡ true) × (128 ≤ length suffix.old) × (open_size w.said ≤ 128) × (w.dropped ≤ w.first) × (w.first + w.lines + 1 < 0x1_0000_0000_0000_0000) }
    ensures { Turned words.old suffixes.old suffix.old named.old line.now w words.new suffixes.new suffix.new named.new result }
{
    if lines::is_key_line(line) {
        return add_line(line, w);
    }
    let dropped = settle(words, suffixes, named, suffix, w);
    start_pair(suffix, line, w.first + w.lines, dropped)
}

// All lines from a place on, with no pair open. Returns how many were dropped.
fn walk_lines(
    text: &[u8],
    from: usize,
    words: &mut [u64],
    suffixes: &mut [u8],
    named: &mut [u64],
) -> usize
    requires { (layout_rule words.old suffixes.old ≡ true) × (2 ≤ from) × (from ≤ length text.now) }
    ensures { Walks text.now from words.old suffixes.old named.old words.new suffixes.new named.new result }
{
    let mut suffix = [0; 128];
    let mut at = from;
    let mut w = Walk {
        first: 2,
        lines: 0,
        dropped: 0,
        said: Open::Unread,
    };
    while at < text.len() {
        let end = lines::line_end(text, at);
        w = turn(words, suffixes, named, &mut suffix, &text[at..end], w);
        at = end;
    }
    settle(words, suffixes, named, &suffix, w)
}

// ── The whole text ──────────────────────────────────────────────────────────────────────────────────────────────────

// The rules of the clock line: the clock is below 2^48, the floor 1 to 2^32.
fn clock_ok(c: Clocked) -> bool
    ensures { result ≡ clocked_rule c }
{
    (c.clock < 0x1_0000_0000_0000) & (1 <= c.floor) & (c.floor <= 0x1_0000_0000)
}

// The lines below the clock line, into a table with its clock and floor. Returns how many were dropped.
fn read_below(
    text: &[u8],
    from: usize,
    c: Clocked,
    words: &mut [u64],
    suffixes: &mut [u8],
    named: &mut [u64],
) -> Result<usize, Refusal>
    requires { (length words.old ≡ 1091) × (length suffixes.old ≡ 8192) × (2 ≤ from) × (from ≤ length text.now) }
    ensures { ReadsBelow text.now from c words.new suffixes.new named.old named.new result }
{
    if !clock_ok(c) {
        return Err(Refusal::Table);
    }
    store::clear(words, c.clock, c.floor);
    Ok(walk_lines(text, from, words, suffixes, named))
}

// Mends the text into the words and octets, whatever they held. Returns how many lines were dropped.
fn read_into(
    text: &[u8],
    words: &mut [u64],
    suffixes: &mut [u8],
    named: &mut [u64],
) -> Result<usize, Refusal>
    requires { (length words.old ≡ 1091) × (length suffixes.old ≡ 8192) }
    ensures { Reads (mendOf text.now) words.new suffixes.new named.old named.new result }
{
    if text.is_empty() {
        return Err(Refusal::Line);
    }
    let end = lines::line_end(text, 0);
    match lines::read_clock(&text[..end]) {
        Some(c) => read_below(text, end, c, words, suffixes, named),
        None => Err(Refusal::Line),
    }
}

// ── The first line that does not read ───────────────────────────────────────────────────────────────────────────────

// Whether a line below line 1 reads; `top` says that it is the first of them.
fn reads_as(line: &[u8], top: bool, suffix: &mut [u8]) -> bool
    requires { 128 ≤ length suffix.old }
    ensures { (result ≡ reads_as (is_key_line line.now) top line.now) × (length suffix.new ≡ length suffix.old) }
{
    if lines::is_key_line(line) {
        return !top && lines::read_key(line).is_some();
    }
    lines::read_pair(line, suffix).is_some()
}

// Of the lines from a place on, which follow line 1.
fn unread_below(text: &[u8], from: usize) -> Option<usize>
    requires { (2 ≤ from) × (from ≤ length text.now) }
    ensures { result ≡ unread_from true 2 (lines_of (drop from text.now)) }
{
    let mut suffix = [0; 128];
    let mut at = from;
    let mut n: usize = 2;
    while at < text.len() {
        let end = lines::line_end(text, at);
        if !reads_as(&text[at..end], n == 2, &mut suffix) {
            return Some(n);
        }
        n += 1;
        at = end;
    }
    None
}

// Of the whole text.
fn first_unread(text: &[u8]) -> Option<usize>
    ensures { result ≡ first_unread (lines_of text.now) }
{
    if text.is_empty() {
        return Some(1);
    }
    let end = lines::line_end(text, 0);
    match lines::read_clock(&text[..end]) {
        Some(_) => unread_below(text, end),
        None => Some(1),
    }
}

// ── The calls ───────────────────────────────────────────────────────────────────────────────────────────────────────

// Puts a table into lent words and octets: TABLE where these have not a table's lengths.
fn keep(words: &mut [u64], suffixes: &mut [u8], w: &[u64], s: &[u8]) -> u64
    requires { (length w.now ≡ 1091) × (length s.now ≡ 8192) }
    ensures { Kept w.now s.now words.old suffixes.old words.new suffixes.new result }
{
    if words.len() != 1091 || suffixes.len() != 8192 {
        return 1;
    }
    words.copy_from_slice(w);
    suffixes.copy_from_slice(s);
    0
}

// LINE or TABLE, of a text that does not load.
fn load_refused(text: &[u8]) -> Ended
    ensures { result ≡ end_of (loaded_from (first_unread (lines_of text.now)) no_rule) }
{
    match first_unread(text) {
        Some(n) => Ended {
            number: 18,
            line: n as u64,
        },
        None => Ended { number: 1, line: 0 },
    }
}

// Load: the table of a listing takes the place of the lent one. Refused, in this order, with LINE (18: the first line that does not read), TABLE (1: a table
// rule is broken, or the lent words and octets are not 1091 and 8192); a refusal changes nothing. Takes some 18 KB of stack.
pub fn load(text: &[u8], words: &mut [u64], suffixes: &mut [u8]) -> Ended
    ensures { Loads text.now words.old suffixes.old words.new suffixes.new result }
{
    let mut w = [0; 1091];
    let mut s = [0; 8192];
    let mut none = [0; 1];
    let Ok(dropped) = read_into(text, &mut w, &mut s, &mut none) else {
        return load_refused(text);
    };
    if dropped != 0 {
        return load_refused(text);
    }
    Ended {
        number: keep(words, suffixes, &w, &s),
        line: 0,
    }
}

// The text mended into a table that is not kept.
fn mendable(text: &[u8]) -> Result<usize, Refusal>
    ensures { Counted (mendOf text.now) result }
{
    let mut w = [0; 1091];
    let mut s = [0; 8192];
    let mut none = [0; 1];
    read_into(text, &mut w, &mut s, &mut none)
}

fn mend_refused(number: u64) -> Mending
    ensures { result ≡ refused_with number }
{
    Mending {
        number,
        line: if number == 18 { 1 } else { 0 },
        dropped: 0,
    }
}

// Mend: what can be kept of a listing takes the place of the lent table, and each dropped line is named in two words: its number, from 1, and the reason (18, 14,
// 15 or 1). Refused, in this order, with LINE (18: line 1 does not read), TABLE (1: line 1 breaks a rule, or the lent words and octets are not 1091 and
// 8192), ROOM (8: there are more lines to name than fit); a refusal changes nothing. Mending does not raise the floor. Takes some 18 KB of stack.
pub fn mend(text: &[u8], words: &mut [u64], suffixes: &mut [u8], named: &mut [u64]) -> Mending
    ensures { Mends text.now words.old suffixes.old named.old words.new suffixes.new named.new result }
{
    let dropped = match mendable(text) {
        Ok(n) => n,
        Err(Refusal::Line) => return mend_refused(18),
        Err(Refusal::Table) => return mend_refused(1),
    };
    if words.len() != 1091 || suffixes.len() != 8192 {
        return mend_refused(1);
    }
    if named.len() / 2 < dropped {
        return mend_refused(8);
    }
    let _ = read_into(text, words, suffixes, named);
    Mending {
        number: 0,
        line: 0,
        dropped,
    }
}
