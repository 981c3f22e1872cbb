// The table as lines of text (02, CR 7).
#![tactic(auto)]

ghost use Rattle.std.specs.Prelude.{◌≡◌, true, [], ◌∷◌, ◌++◌, ◌+◌, ◌*◌, ◌≤◌, leb, length};
ghost use Rattle.model.specs.Tables.{table_rules};
ghost use Rattle.model.specs.Text.{numeral, parted_by};
ghost use Rattle.model.specs.Listing.{clock_line, pair_line, key_line, key_lines, listing};
ghost use Rattle.octets.specs.Wrote.{Wrote};
ghost use Rattle.store.specs.Layout.{table_of};
ghost use Rattle.listing.specs.Listed.{Lists};

use model::{Key, Keys, Pair};

// Why there is no listing: the table breaks a rule, or the listing is longer than the buffer.
#[derive(Clone, Copy)]
pub enum ListError {
    Broken,
    Long,
}

fn clock_line(buf: &mut [u8], clock: u64, floor: u64) -> usize
    requires { 48 ≤ length buf.old }
    ensures { (result ≤ 48) × Wrote (clock_line clock floor) 0 buf.old buf.new result }
{
    let next = octets::all_into(buf, 0, b"clock");
    let next = text::number_field(buf, next, b'\t', clock);
    let next = text::number_field(buf, next, b'\t', floor);
    octets::u8_into(buf, next, b'\n')
}

// Three numbers, the last fields of a line.
fn line_end(buf: &mut [u8], at: usize, x: u64, y: u64, z: u64) -> usize
    requires { at + 64 ≤ length buf.old }
    ensures { (result ≤ at + 64) × Wrote (parted_by 9 (numeral x ∷ numeral y ∷ numeral z ∷ [])) at buf.old buf.new result }
{
    let next = text::number_field(buf, at, b'\t', x);
    let next = text::number_field(buf, next, b'\t', y);
    let next = text::number_field(buf, next, b'\t', z);
    octets::u8_into(buf, next, b'\n')
}

fn pair_line(buf: &mut [u8], at: usize, suffix: &[u8], p: Pair) -> usize
    requires { at + 69 + 2 * length suffix.now ≤ length buf.old }
    ensures { (result ≤ at + 69 + 2 * length suffix.now) × Wrote (pair_line suffix.now p) at buf.old buf.new result }
{
    let next = octets::all_into(buf, at, b"pair\t");
    let next = text::hex_into(buf, next, suffix);
    line_end(buf, next, p.next_serial, p.lifetime, p.fresh)
}

// A key's line. Its state is `adopted` or `waiting`.
fn key_line(buf: &mut [u8], at: usize, state: &[u8], k: Key) -> usize
    requires { (at + 108 ≤ length buf.old) × (length state.now ≤ 7) }
    ensures { (result ≤ at + 108) × Wrote (key_line state.now k) at buf.old buf.new result }
{
    let next = octets::all_into(buf, at, b"key\t");
    let next = octets::all_into(buf, next, state);
    let next = text::number_field(buf, next, b'\t', k.serial);
    let g = k.algorithm;
    let next = text::algorithm_field(buf, next, g);
    line_end(buf, next, k.inception, k.partial, k.expiry)
}

fn key_lines(buf: &mut [u8], at: usize, keys: Keys) -> usize
    requires { at + 216 ≤ length buf.old }
    ensures { (result ≤ at + 216) × Wrote (key_lines keys) at buf.old buf.new result }
{
    match keys {
        Keys::Empty => at,
        Keys::Adopted(a) => key_line(buf, at, b"adopted", a),
        Keys::Renewing(a, w) => {
            let next = key_line(buf, at, b"adopted", a);
            key_line(buf, next, b"waiting", w)
        }
    }
}

// A pair's line and those of its keys.
fn row_lines(buf: &mut [u8], at: usize, suffix: &[u8], p: Pair) -> usize
    requires { (at + 541 ≤ length buf.old) × (length suffix.now ≤ 128) }
    ensures { (result ≤ at + 541) × Wrote (pair_line suffix.now p ++ key_lines p.keys) at buf.old buf.new result }
{
    let next = pair_line(buf, at, suffix, p);
    let keys = p.keys;
    key_lines(buf, next, keys)
}

// ── A buffer of any length ──────────────────────────────────────────────────────────────────────────────────────────

// The writers above ask for the room of the longest lines that there are. Made in a scratch buffer and copied, lines need no octet more than they have.
fn clock_into(buf: &mut [u8], clock: u64, floor: u64) -> usize
    requires { length (clock_line clock floor) ≤ length buf.old }
    ensures { Wrote (clock_line clock floor) 0 buf.old buf.new result }
{
    let mut scratch = [0; 48];
    let n = clock_line(&mut scratch, clock, floor);
    octets::part_into(buf, 0, &scratch, 0, n)
}

fn row_into(buf: &mut [u8], at: usize, suffix: &[u8], p: Pair) -> usize
    requires { (at + length (pair_line suffix.now p ++ key_lines p.keys) ≤ length buf.old) × (length suffix.now ≤ 128) }
    ensures { Wrote (pair_line suffix.now p ++ key_lines p.keys) at buf.old buf.new result }
{
    let mut scratch = [0; 541];
    let n = row_lines(&mut scratch, 0, suffix, p);
    octets::part_into(buf, at, &scratch, 0, n)
}

fn clock_size(clock: u64, floor: u64) -> usize
    ensures { (result ≤ 48) × (result ≡ length (clock_line clock floor)) }
{
    let mut scratch = [0; 48];
    clock_line(&mut scratch, clock, floor)
}

fn row_size(suffix: &[u8], p: Pair) -> usize
    requires { length suffix.now ≤ 128 }
    ensures { (result ≤ 541) × (result ≡ length (pair_line suffix.now p ++ key_lines p.keys)) }
{
    let mut scratch = [0; 541];
    row_lines(&mut scratch, 0, suffix, p)
}

// How long the listing is, of a table that keeps the rules.
fn size(words: &[u64], suffixes: &[u8]) -> usize
    requires { table_rules (table_of words.now suffixes.now) ≡ true }
    ensures { result ≡ length (listing (table_of words.now suffixes.now)) }
{
    let mut total = clock_size(words[0], words[2]);
    for i in 0..words[1] as usize {
        let p = outcomes::pair_of(words, suffixes, i);
        let suffix = outcomes::suffix_of(words, suffixes, i);
        total += row_size(suffix, p);
    }
    total
}

// Where the longest listing of as many pairs has room, this one is not measured.
fn has_room(words: &[u64], suffixes: &[u8], room: usize) -> bool
    requires { table_rules (table_of words.now suffixes.now) ≡ true }
    ensures { result ≡ leb (length (listing (table_of words.now suffixes.now))) room }
{
    let n = words[1] as usize;
    48 + 541 * n <= room || size(words, suffixes) <= room
}

// The listing of a table that keeps the rules, where there is room for it.
fn list_into(words: &[u64], suffixes: &[u8], buf: &mut [u8]) -> usize
    requires { (table_rules (table_of words.now suffixes.now) ≡ true) × (length (listing (table_of words.now suffixes.now)) ≤ length buf.old) }
    ensures { Wrote (listing (table_of words.now suffixes.now)) 0 buf.old buf.new result }
{
    let mut next = clock_into(buf, words[0], words[2]);
    let n = words[1] as usize;
    for i in 0..n {
        let p = outcomes::pair_of(words, suffixes, i);
        let suffix = outcomes::suffix_of(words, suffixes, i);
        next = row_into(buf, next, suffix, p);
    }
    next
}

// Lists the table at the front of the buffer, and answers how many octets the text has; a refusal leaves every octet of the buffer.
pub fn list(words: &[u64], suffixes: &[u8], buf: &mut [u8]) -> Result<usize, ListError>
    ensures { Lists (table_of words.now suffixes.now) buf.old buf.new result }
{
    if !ruling::rules_ok(words, suffixes) {
        return Err(ListError::Broken);
    }
    if !has_room(words, suffixes, buf.len()) {
        return Err(ListError::Long);
    }
    Ok(list_into(words, suffixes, buf))
}
