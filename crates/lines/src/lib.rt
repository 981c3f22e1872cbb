// The lines of a listing, read (02, CR 7). A reader goes from field to field by the place of the separator, the tab before a field or the newline that ends the
// line; each step answers what the field says and the place of the next separator.
#![tactic(auto)]

ghost use Rattle.std.specs.Prelude.{◌≡◌, ◌≤◌, ◌<◌, ◌==◌, ◌||◌, [], ◌∷◌, List, Option, ℕ, length, drop, position};
ghost use Rattle.model.specs.Text.{is_word};
ghost use Rattle.model.specs.Lines.{is_key_line, plain_number, is_adopted, algorithm_said, suffix_said, read_clock, read_key};
ghost use Rattle.words.specs.Reads.{OctetsRead};
ghost use Rattle.lines.specs.Fields.{no_upper, headed, taken, last_numbers, place_shown, field_shown, FieldEnds, FieldTaken, SuffixTaken};
ghost use Rattle.lines.specs.Read.{LineEnds, PairRead};

use model::{Algorithm, Clocked, Key, Keys, Pair, Stated};

// What a field says, and the place of the separator behind it.
#[derive(Clone, Copy)]
struct Field<T> {
    said: T,
    next: usize,
}

// ── Lines and fields ────────────────────────────────────────────────────────────────────────────────────────────────

// How many octets stand before the first newline.
fn to_newline(s: &[u8]) -> Option<usize>
    ensures { result ≡ position (λ c. c == 10) s.now }
{
    s.iter().position(|c| *c == b'\n')
}

// How many octets stand before the first tab or newline.
fn to_separator(s: &[u8]) -> Option<usize>
    ensures { result ≡ position (λ c. c == 9 || c == 10) s.now }
{
    s.iter().position(|c| *c == b'\t' || *c == b'\n')
}

// Where the line that begins at `at` ends, its newline counted.
pub fn line_end(text: &[u8], at: usize) -> usize
    requires { at < length text.now }
    ensures { LineEnds text.now at result }
{
    match to_newline(&text[at..]) {
        Some(n) => at + n + 1,
        None => text.len(),
    }
}

// Where the field that begins at `from` ends: at a tab, at a newline, or with the line.
fn field_end(line: &[u8], from: usize) -> usize
    requires { from ≤ length line.now }
    ensures { FieldEnds line.now from result }
{
    match to_separator(&line[from..]) {
        Some(n) => from + n,
        None => line.len(),
    }
}

// Where the first field ends, which must be this word.
fn first_end(line: &[u8], word: &[u8]) -> Option<usize>
    ensures { headed word.now line.now ≡ place_shown line.now result }
{
    let end = field_end(line, 0);
    if words::is_word(&line[..end], word) {
        return Some(end);
    }
    None
}

// Where the field behind the tab at `at` ends.
fn next_end(line: &[u8], at: usize) -> Option<usize>
    ensures { FieldTaken line.now at result }
{
    if line.len() <= at {
        return None;
    }
    if line[at] == b'\t' {
        return Some(field_end(line, at + 1));
    }
    None
}

// Whether the newline at `at` ends the line.
fn is_end(line: &[u8], at: usize) -> bool
    ensures { result ≡ is_word (drop at line.now) (10 ∷ []) }
{
    at <= line.len() && words::is_word(&line[at..], b"\n")
}

// ── What a field says ───────────────────────────────────────────────────────────────────────────────────────────────

// What a field can say.
trait Said: Copy {
    ghost said: { List ℕ → Option Self };

    fn read(w: &[u8]) -> Option<Self>
        ensures { result ≡ said w.now };
}

// A number without leading zeros.
impl Said for u64 {
    ghost said = { plain_number };

    fn read(w: &[u8]) -> Option<u64> {
        if 2 <= w.len() && w[0] <= b'0' {
            return None;
        }
        words::read_number(w)
    }
}

// `adopted` or `waiting`.
impl Said for bool {
    ghost said = { is_adopted };

    fn read(w: &[u8]) -> Option<bool> {
        if words::is_word(w, b"adopted") {
            return Some(true);
        }
        if words::is_word(w, b"waiting") {
            return Some(false);
        }
        None
    }
}

impl Said for Algorithm {
    ghost said = { algorithm_said };

    fn read(w: &[u8]) -> Option<Algorithm> {
        if words::is_word(w, b"hmac-sha256") {
            return Some(Algorithm::Sha256);
        }
        if words::is_word(w, b"hmac-sha384") {
            return Some(Algorithm::Sha384);
        }
        if words::is_word(w, b"hmac-sha512") {
            return Some(Algorithm::Sha512);
        }
        None
    }
}

// The field behind the tab at `at`.
fn take<T: Said>(line: &[u8], at: usize) -> Option<Field<T>>
    ensures { taken T.said line.now at ≡ field_shown line.now result }
{
    let next = next_end(line, at)?;
    let said = T::read(&line[at + 1..next])?;
    Some(Field { said, next })
}

fn no_upper(w: &[u8]) -> bool
    ensures { result ≡ no_upper w.now }
{
    w.iter().all(|c| !(b'A' <= *c && *c <= b'F'))
}

// A suffix in lower-case hexadecimal, written to the front of out.
fn suffix_into(w: &[u8], out: &mut [u8]) -> Option<usize>
    requires { 128 ≤ length out.old }
    ensures { OctetsRead (suffix_said w.now) out.old out.new result }
{
    if w.is_empty() || 256 < w.len() || !no_upper(w) {
        return None;
    }
    words::unhex_into(w, out)
}

// The suffix behind the tab at `at`: how many octets it has.
fn take_suffix(line: &[u8], at: usize, suffix: &mut [u8]) -> Option<Field<usize>>
    requires { 128 ≤ length suffix.old }
    ensures { SuffixTaken line.now at suffix.old suffix.new result }
{
    let next = next_end(line, at)?;
    let said = suffix_into(&line[at + 1..next], suffix)?;
    Some(Field { said, next })
}

// ── What a line says ────────────────────────────────────────────────────────────────────────────────────────────────

// Whether the line's first field is `key`.
pub fn is_key_line(line: &[u8]) -> bool
    ensures { result ≡ is_key_line line.now }
{
    let end = field_end(line, 0);
    words::is_word(&line[..end], b"key")
}

pub fn read_clock(line: &[u8]) -> Option<Clocked>
    ensures { result ≡ read_clock line.now }
{
    let first = first_end(line, b"clock")?;
    let clock = take::<u64>(line, first)?;
    let floor = take::<u64>(line, clock.next)?;
    if !is_end(line, floor.next) {
        return None;
    }
    Some(Clocked {
        clock: clock.said,
        floor: floor.said,
    })
}

// Three numbers that end the line: a pair's next serial, lifetime and fresh period, or a key's three times.
fn last_numbers(line: &[u8], at: usize) -> Option<(u64, u64, u64)>
    ensures { result ≡ last_numbers line.now at }
{
    let a = take::<u64>(line, at)?;
    let b = take::<u64>(line, a.next)?;
    let c = take::<u64>(line, b.next)?;
    if !is_end(line, c.next) {
        return None;
    }
    Some((a.said, b.said, c.said))
}

// A pair that has no keys yet, and how many octets its suffix has: they are written to the front of the lent buffer. What else that holds afterwards is not
// said.
pub fn read_pair(line: &[u8], suffix: &mut [u8]) -> Option<(usize, Pair)>
    requires { 128 ≤ length suffix.old }
    ensures { PairRead line.now suffix.old suffix.new result }
{
    let first = first_end(line, b"pair")?;
    let size = take_suffix(line, first, suffix)?;
    let (next_serial, lifetime, fresh) = last_numbers(line, size.next)?;
    Some((
        size.said,
        Pair {
            lifetime,
            fresh,
            next_serial,
            keys: Keys::Empty,
        },
    ))
}

pub fn read_key(line: &[u8]) -> Option<Stated>
    ensures { result ≡ read_key line.now }
{
    let first = first_end(line, b"key")?;
    let adopted = take::<bool>(line, first)?;
    let serial = take::<u64>(line, adopted.next)?;
    let algorithm = take::<Algorithm>(line, serial.next)?;
    let (inception, partial, expiry) = last_numbers(line, algorithm.next)?;
    Some(Stated {
        adopted: adopted.said,
        key: Key {
            serial: serial.said,
            algorithm: algorithm.said,
            inception,
            partial,
            expiry,
        },
    })
}
