// Another server's reply compared with ours (02, CR 12), field by field in wire order, where the two lie: in loops, with no array and no recursion.
#![tactic(auto)]

ghost use Rattle.std.specs.Prelude.{◌≡◌, ℕ, ◌+◌, ◌≤◌, ◌<◌, ◌^◌, List, length, drop};
ghost use Rattle.model.specs.Octets.{u16_at, part, Reading};
ghost use Rattle.model.specs.Names.{read_plain};
ghost use Rattle.model.specs.Messages.{read_message};
ghost use Rattle.model.specs.Compare.{Placed, tkey_end, tkey_middle, tkey_fields, data_fields, question_fields, record_fields, same_octets, first_in, first_difference, verdict, by_reading, compared};
ghost use Rattle.comparing.specs.Fields.{unless, total, octet_fields, question_size, record_size, Stands, Told, ToldFrom, counted, BodyTold};

use compression::Name;
use messages::Outline;
use model::Verdict;

// ── Octets ──────────────────────────────────────────────────────────────────────────────────────────────────────────

// Whether octets are the same.
fn same_octets(a: &[u8], b: &[u8]) -> bool
    ensures { result ≡ same_octets a.now b.now }
{
    a == b
}

// n octets of m from `from` on, or as many as there are.
fn part_at(m: &[u8], from: usize, n: usize) -> &[u8]
    ensures { result.now ≡ part m.now from n }
{
    if m.len() <= from {
        return &m[0..0];
    }
    if m.len() - from < n {
        return &m[from..];
    }
    &m[from..from + n]
}

fn same_part(a: &[u8], i: usize, b: &[u8], j: usize, n: usize) -> bool
    ensures { result ≡ same_octets (part a.now i n) (part b.now j n) }
{
    let x = part_at(a, i, n);
    let y = part_at(b, j, n);
    same_octets(x, y)
}

// Fields of these widths, one behind the other: of ours from i on, of theirs from j on, where the first stands at `place`.
fn fields(a: &[u8], i: usize, b: &[u8], j: usize, place: usize, widths: &[u8]) -> Option<usize>
    requires { (i + total widths.now < 2 ^ 64) × (j + total widths.now < 2 ^ 64) × (place + total widths.now < 2 ^ 64) }
    ensures { (end at : ℕ)
        → first_in end (octet_fields a.now i at widths.now) (octet_fields b.now j place widths.now) ≡ result }
{
    let mut past: usize = 0;
    for width in widths {
        let n = octets::wide(*width);
        if !same_part(a, i + past, b, j + past, n) {
            return Some(place + past);
        }
        past += n;
    }
    None
}

// ── A record's data ─────────────────────────────────────────────────────────────────────────────────────────────────

// One field: all that is left of ours and of theirs, which stand at the same place of their data; theirs begins at `base` of the message.
fn rest(c: &[u8], d: &[u8], at: usize, base: usize) -> Option<usize>
    requires { (at ≤ length c.now) × (at ≤ length d.now) × (base + at < 2 ^ 64) }
    ensures { result ≡ unless (same_octets (drop at c.now) (drop at d.now)) (base + at) }
{
    if same_octets(&c[at..], &d[at..]) {
        return None;
    }
    Some(base + at)
}

// Of a TKEY's data n octets of key data, other size and other data (RFC 2930, 2).
fn tkey_end(c: &[u8], d: &[u8], from: usize, n: usize, base: usize) -> Option<usize>
    requires { (from ≤ length c.now) × (length c.now ≡ length d.now) × (n < 65536) × (base + length d.now < 2 ^ 64) }
    ensures { (end i : ℕ) → first_in end (tkey_end i c.now from n) (tkey_end base d.now from n) ≡ result }
{
    if c.len() - from < n + 2 {
        return rest(c, d, from, base);
    }
    if !same_part(c, from, d, from, n) {
        return Some(base + from);
    }
    let to = from + n;
    if !same_part(c, to, d, to, 2) {
        return Some(base + to);
    }
    rest(c, d, to + 2, base)
}

// Inception, expiration, mode, error and key size, and what follows.
fn tkey_middle(c: &[u8], d: &[u8], at: usize, base: usize) -> Option<usize>
    requires { (at ≤ length c.now) × (length c.now ≡ length d.now) × (base + length d.now < 2 ^ 64) }
    ensures { (end i : ℕ) → first_in end (tkey_middle i c.now at) (tkey_middle base d.now at) ≡ result }
{
    if c.len() - at < 14 {
        return rest(c, d, at, base);
    }
    match fields(c, at, d, at, base + at, b"\x04\x04\x02\x02\x02") {
        None => tkey_end(c, d, at + 14, octets::u16_at(c, at + 12), base),
        Some(place) => Some(place),
    }
}

// A TKEY's data. Its algorithm, never compressed, compares as a name.
fn tkey_data(c: &[u8], d: &[u8], base: usize) -> Option<usize>
    requires { (length c.now ≡ length d.now) × (base + length d.now < 2 ^ 64) }
    ensures { (end i : ℕ) → first_in end
        (tkey_fields i c.now (read_plain c.now 0))
        (tkey_fields base d.now (read_plain d.now 0)) ≡ result }
{
    match compression::skip_plain(c, 0) {
        Err(_) => match compression::skip_plain(d, 0) {
            Err(_) => rest(c, d, 0, base),
            Ok(Name { len: _, next: _ }) => Some(base),
        },
        Ok(Name { len: _, next }) => {
            if matching::same_names_at(c, 0, d, 0) {
                return tkey_middle(c, d, next, base);
            }
            Some(base)
        }
    }
}

// The data of a record of this type.
fn data_fields(kind: usize, c: &[u8], d: &[u8], base: usize) -> Option<usize>
    requires { (length c.now ≡ length d.now) × (base + length d.now < 2 ^ 64) }
    ensures { (end i : ℕ) → first_in end (data_fields kind i c.now) (data_fields kind base d.now) ≡ result }
{
    if kind == 249 {
        return tkey_data(c, d, base);
    }
    rest(c, d, 0, base)
}

// ── A question, a record ────────────────────────────────────────────────────────────────────────────────────────────

// What comparing questions or records gives: a field differs; neither reply has a field more; or all are the same, and the replies go on at these places.
#[derive(Clone, Copy)]
enum Walk {
    Differs(usize),
    Ends,
    Same { ours: usize, theirs: usize },
}

// What a message has several of, one behind the other: a question or a record.
trait Entry {
    ghost fields: { List ℕ → ℕ → Reading (List Placed) };

    // How many octets one of m has behind its name, by where that ends.
    ghost size: { List ℕ → ℕ → ℕ };

    // Where the name ends of the one at `at` of m, if one stands there.
    fn name_end(m: &[u8], at: usize) -> Option<usize>
        ensures { Stands fields size m.now at result };

    // The one at i of ours, whose name ends before p, and the one at j of theirs, whose name ends before q.
    fn walk(a: &[u8], i: usize, p: usize, b: &[u8], j: usize, q: usize) -> Walk
        requires { Stands fields size a.now i (Some p) × Stands fields size b.now j (Some q) }
        ensures { Told (length b.now) (fields a.now i) (fields b.now j) result };
}

#[derive(Clone, Copy)]
struct Question;

impl Entry for Question {
    ghost fields = { question_fields };

    ghost size = { question_size };

    fn name_end(m: &[u8], at: usize) -> Option<usize> {
        match compression::skip_name(m, at) {
            Err(_) => None,
            Ok(Name { len: _, next }) => {
                if m.len() - next < 4 {
                    return None;
                }
                Some(next)
            }
        }
    }

    fn walk(a: &[u8], i: usize, p: usize, b: &[u8], j: usize, q: usize) -> Walk {
        if !matching::same_names_at(a, i, b, j) {
            return Walk::Differs(j);
        }
        match fields(a, p, b, q, q, b"\x02\x02") {
            None => Walk::Same {
                ours: p + 4,
                theirs: q + 4,
            },
            Some(place) => Walk::Differs(place),
        }
    }
}

// The data of two records of the same type and RDLENGTH, whose owners end before p and q.
fn record_data(a: &[u8], p: usize, b: &[u8], q: usize) -> Option<usize>
    requires { (p + 10 + u16_at a.now (p + 8) ≤ length a.now)
        × (q + 10 + u16_at b.now (q + 8) ≤ length b.now)
        × (u16_at a.now (p + 8) ≡ u16_at b.now (q + 8)) }
    ensures { (end : ℕ) → first_in end
        (data_fields (u16_at a.now p) (p + 10) (part a.now (p + 10) (u16_at a.now (p + 8))))
        (data_fields (u16_at a.now p) (q + 10) (part b.now (q + 10) (u16_at b.now (q + 8)))) ≡ result }
{
    let size = octets::u16_at(a, p + 8);
    let c = part_at(a, p + 10, size);
    let d = part_at(b, q + 10, size);
    data_fields(octets::u16_at(a, p), c, d, q + 10)
}

#[derive(Clone, Copy)]
struct Record;

impl Entry for Record {
    ghost fields = { record_fields };

    ghost size = { record_size };

    fn name_end(m: &[u8], at: usize) -> Option<usize> {
        match compression::skip_name(m, at) {
            Err(_) => None,
            Ok(Name { len: _, next }) => {
                if m.len() - next < 10 {
                    return None;
                }
                if m.len() - (next + 10) < octets::u16_at(m, next + 8) {
                    return None;
                }
                Some(next)
            }
        }
    }

    fn walk(a: &[u8], i: usize, p: usize, b: &[u8], j: usize, q: usize) -> Walk {
        if !matching::same_names_at(a, i, b, j) {
            return Walk::Differs(j);
        }
        match fields(a, p, b, q, q, b"\x02\x02\x04\x02") {
            Some(place) => Walk::Differs(place),
            None => match record_data(a, p, b, q) {
                Some(place) => Walk::Differs(place),
                None => {
                    let size = octets::u16_at(a, p + 8);
                    Walk::Same {
                        ours: p + 10 + size,
                        theirs: q + 10 + size,
                    }
                }
            },
        }
    }
}

// The one at i of ours and the one at j of theirs.
fn walk_one<E: Entry>(a: &[u8], i: usize, b: &[u8], j: usize) -> Walk
    ensures { Told (length b.now) (E.fields a.now i) (E.fields b.now j) result }
{
    match E::name_end(a, i) {
        None => match E::name_end(b, j) {
            None => Walk::Ends,
            Some(_) => Walk::Differs(j),
        },
        Some(p) => match E::name_end(b, j) {
            None => Walk::Differs(b.len()),
            Some(q) => E::walk(a, i, p, b, j, q),
        },
    }
}

// ── The replies ─────────────────────────────────────────────────────────────────────────────────────────────────────

// `count` questions or records of each, from these places on.
fn walk_all<E: Entry>(a: &[u8], from: usize, b: &[u8], to: usize, count: usize) -> Walk
    ensures { ToldFrom (length b.now) (E.fields a.now) (E.fields b.now) count from to result }
{
    let mut i = from;
    let mut j = to;
    for _ in 0..count {
        match walk_one::<E>(a, i, b, j) {
            Walk::Differs(place) => return Walk::Differs(place),
            Walk::Ends => return Walk::Ends,
            Walk::Same { ours, theirs } => {
                i = ours;
                j = theirs;
            }
        }
    }
    Walk::Same { ours: i, theirs: j }
}

// The records of the three sections, as counted in theirs.
fn sections(a: &[u8], from: usize, b: &[u8], to: usize) -> Walk
    requires { 12 ≤ length b.now }
    ensures { ToldFrom (length b.now) (record_fields a.now) (record_fields b.now) (counted b.now) from to result }
{
    let last = octets::u16_at(b, 8) + octets::u16_at(b, 10);
    let count = octets::u16_at(b, 6) + last;
    walk_all::<Record>(a, from, b, to, count)
}

// Questions and records, as counted in theirs.
fn behind_header(a: &[u8], b: &[u8]) -> Walk
    requires { 12 ≤ length b.now }
    ensures { BodyTold a.now b.now result }
{
    match walk_all::<Question>(a, 12, b, 12, octets::u16_at(b, 4)) {
        Walk::Differs(place) => Walk::Differs(place),
        Walk::Ends => Walk::Ends,
        Walk::Same { ours, theirs } => sections(a, ours, b, theirs),
    }
}

// The first field that differs. Where the headers are the same, so are the counts.
fn first_difference(a: &[u8], b: &[u8]) -> Option<usize>
    requires { 12 ≤ length b.now }
    ensures { first_difference a.now b.now ≡ result }
{
    match fields(a, 0, b, 0, 0, b"\x02\x02\x02\x02\x02\x02") {
        Some(place) => Some(place),
        None => match behind_header(a, b) {
            Walk::Differs(place) => Some(place),
            Walk::Ends => None,
            Walk::Same { ours: _, theirs: _ } => None,
        },
    }
}

fn verdict_of(number: u64, place: usize) -> Verdict
    ensures { result ≡ verdict number place }
{
    Verdict {
        number,
        place: place as u64,
    }
}

// Compares theirs, of allowed size, with ours.
fn compare_sized(ours: &[u8], theirs: &[u8]) -> Verdict
    requires { 12 ≤ length theirs.now }
    ensures { result ≡ by_reading ours.now theirs.now (read_message theirs.now) }
{
    match messages::scan(theirs) {
        Err(place) => verdict_of(6, place),
        Ok(
            Outline {
                end: _,
                request: _,
                seen: _,
                last: _,
            },
        ) => match first_difference(ours, theirs) {
            None => verdict_of(0, 0),
            Some(place) => verdict_of(21, place),
        },
    }
}

// Whether the other server's reply, its TSIG taken off, has the meaning of ours: 0; else DIFFERS (21) with the place of the first field of theirs that differs,
// SIZE (4), or FORMAT (6) with the place where reading failed. An empty reply is none.
pub fn compare(ours: &[u8], theirs: &[u8]) -> Verdict
    ensures { result ≡ compared ours.now theirs.now }
{
    if ours.len() == 0 {
        if theirs.len() == 0 {
            return verdict_of(0, 0);
        }
        return verdict_of(21, 0);
    }
    if theirs.len() == 0 {
        return verdict_of(21, 0);
    }
    if theirs.len() < 12 {
        return verdict_of(4, 0);
    }
    if 65535 < theirs.len() {
        return verdict_of(4, 0);
    }
    compare_sized(ours, theirs)
}
