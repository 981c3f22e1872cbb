// Replies (01, "The reply"), length first, into the lent buffer. A writer takes the place and answers the next one.
#![tactic(auto)]

ghost use Rattle.std.specs.Prelude.{◌≡◌, [], ◌∷◌, ◌+◌, ◌-◌, ◌*◌, ◌^◌, ◌≤◌, ◌<◌, length};
ghost use Rattle.model.specs.Octets.{be16};
ghost use Rattle.model.specs.Messages.{opcode_of, desired_of};
ghost use Rattle.model.specs.Replies.{heading, tkey_record, lends, answers_of, behind, rcode_reply};
ghost use Rattle.octets.specs.Wrote.{Wrote};
ghost use Rattle.records.specs.Record.{cut, Within};
ghost use Rattle.contents.specs.Contents.{ContentsRead};
ghost use Rattle.replies.specs.Parts.{heading_front, heading_back, framed, sized_octets, record_front, tkey_front, data_of, echo_of, key_data, repeated_octets, renewed_octets, takes_offer, granted_octets, repeated_size, renewed_size, Replied, FieldsIn, EchoIn, Read};
ghost use Rattle.replies.specs.Written.{is_quiet, answer_of, other_of, grant_of, outcome_of, renewal_octets, NameOut, DecisionFits, Replies};

use compression::Name;
use contents::Contents;
use model::{Decision, Pair, Scheme, Span};
use tkey::{KeyFields, OnlyKey, OnlyTkey, TkeyFields};

// The TKEY that answers: parts of the request, and numbers.
#[derive(Clone, Copy)]
struct Fields {
    pub algorithm: Span,
    pub inception: usize,
    pub expiration: usize,
    pub mode: usize,
    pub error: usize,
    pub key: Span,
    pub other: Span,
}

// The answer to a granted renewal but for its names and its key data: where the questions end, how many answers it has, the TKEY, and the KEY that is echoed.
#[derive(Clone, Copy)]
struct Grant {
    pub end: usize,
    pub answers: usize,
    pub fields: Fields,
    pub echo: KeyFields,
}

// What is new in a granted renewal: the pair as it is, and the time.
#[derive(Clone, Copy)]
pub struct Moment {
    pub pair: Pair,
    pub time: u64,
}

// QR 1, opcode and RD as asked, other flags 0, and the RCODE.
fn flags_of(m: &[u8], rcode: usize) -> usize
    requires { (3 ≤ length m.now) × (rcode < 256) }
    ensures { (result < 65536) × (be16 result ≡ (128 + opcode_of m.now * 8 + desired_of m.now) ∷ rcode ∷ []) }
{
    let o = octets::wide(m[2]);
    (128 + o / 8 % 16 * 8 + o % 2) * 256 + rcode
}

// ID, flags and count of questions.
fn heading_front(buf: &mut [u8], m: &[u8], rcode: usize) -> usize
    requires { (12 ≤ length m.now) × (12 ≤ length buf.old) × (rcode < 256) }
    ensures { (result ≡ 6) × Wrote (heading_front m.now rcode) 0 buf.old buf.new result }
{
    let a = octets::u16_into(buf, 0, octets::u16_at(m, 0));
    let b = octets::u16_into(buf, a, flags_of(m, rcode));
    octets::u16_into(buf, b, octets::u16_at(m, 4))
}

// The other counts, and the questions.
fn heading_back(
    buf: &mut [u8],
    at: usize,
    m: &[u8],
    end: usize,
    answers: usize,
    additionals: usize,
) -> usize
    requires { Read m.now end × (at + (end - 6) ≤ length buf.old) × (answers < 65536) × (additionals < 65536) }
    ensures { (result ≡ at + (end - 6)) × Wrote (heading_back m.now end answers additionals) at buf.old buf.new result }
{
    let a = octets::u16_into(buf, at, answers);
    let b = octets::u16_into(buf, a, 0);
    let d = octets::u16_into(buf, b, additionals);
    octets::part_into(buf, d, m, 12, end - 12)
}

fn head(
    buf: &mut [u8],
    m: &[u8],
    end: usize,
    rcode: usize,
    answers: usize,
    additionals: usize,
) -> usize
    requires { Read m.now end × (end ≤ length buf.old) × (rcode < 256) × (answers < 65536) × (additionals < 65536) }
    ensures { (result ≡ end) × Wrote (heading (framed m.now end) rcode answers additionals) 0 buf.old buf.new result }
{
    let a = heading_front(buf, m, rcode);
    heading_back(buf, a, m, end, answers, additionals)
}

// Octets behind their count.
fn sized(buf: &mut [u8], at: usize, s: &[u8]) -> usize
    requires { (at + 2 + length s.now ≤ length buf.old) × (length s.now < 65536) }
    ensures { (result ≡ at + 2 + length s.now) × Wrote (sized_octets s.now) at buf.old buf.new result }
{
    let a = octets::u16_into(buf, at, s.len());
    octets::all_into(buf, a, s)
}

fn sized_part(buf: &mut [u8], at: usize, m: &[u8], p: Span) -> usize
    requires { (at + 2 + p.size ≤ length buf.old) × (p.size < 65536) × Within m.now p }
    ensures { (result ≡ at + 2 + p.size) × Wrote (sized_octets (cut m.now p)) at buf.old buf.new result }
{
    let a = octets::u16_into(buf, at, p.size);
    octets::part_into(buf, a, m, p.from, p.size)
}

// A TKEY's data up to its key data.
fn tkey_front(buf: &mut [u8], at: usize, m: &[u8], t: Fields) -> usize
    requires { (at + t.algorithm.size + 12 ≤ length buf.old) × FieldsIn m.now t }
    ensures { (result ≡ at + t.algorithm.size + 12)
        × Wrote (tkey_front (cut m.now t.algorithm) t.inception t.expiration t.mode t.error) at buf.old buf.new result }
{
    let a = octets::part_into(buf, at, m, t.algorithm.from, t.algorithm.size);
    let b = octets::u32_into(buf, a, t.inception);
    let d = octets::u32_into(buf, b, t.expiration);
    let e = octets::u16_into(buf, d, t.mode);
    octets::u16_into(buf, e, t.error)
}

// A TKEY's data: key is its key data.
fn tkey_data(buf: &mut [u8], at: usize, m: &[u8], t: Fields, key: &[u8]) -> usize
    requires { (at + t.algorithm.size + 16 + length key.now + t.other.size ≤ length buf.old)
        × (length key.now < 65536) × (t.other.size < 65536) × FieldsIn m.now t }
    ensures { (result ≡ at + t.algorithm.size + 16 + length key.now + t.other.size)
        × Wrote (data_of m.now t key.now) at buf.old buf.new result }
{
    let a = tkey_front(buf, at, m, t);
    let b = sized(buf, a, key);
    let p = t.other;
    sized_part(buf, b, m, p)
}

// A record up to its data, of this many octets.
pub fn record_front(
    buf: &mut [u8],
    at: usize,
    owner: &[u8],
    kind: usize,
    class: usize,
    ttl: usize,
    size: usize,
) -> usize
    requires { (at + length owner.now + 10 ≤ length buf.old) × (kind < 65536) × (class < 65536) × (ttl < 4294967296) × (size < 65536) }
    ensures { (result ≡ at + length owner.now + 10)
        × Wrote (record_front owner.now kind class ttl size) at buf.old buf.new result }
{
    let a = octets::all_into(buf, at, owner);
    let b = octets::u16_into(buf, a, kind);
    let d = octets::u16_into(buf, b, class);
    let e = octets::u32_into(buf, d, ttl);
    octets::u16_into(buf, e, size)
}

// The length of a TKEY's data.
fn tkey_size(t: Fields, key: usize) -> usize
    requires { (t.algorithm.size < 65536) × (key < 65536) × (t.other.size < 65536) }
    ensures { result ≡ t.algorithm.size + 16 + key + t.other.size }
{
    t.algorithm.size + 16 + key + t.other.size
}

// A TKEY record: class 255, TTL 0.
fn tkey_record(buf: &mut [u8], at: usize, owner: &[u8], m: &[u8], t: Fields, key: &[u8]) -> usize
    requires { (at + length owner.now + 26 + t.algorithm.size + length key.now + t.other.size ≤ length buf.old)
        × (t.algorithm.size + 16 + length key.now + t.other.size < 65536) × FieldsIn m.now t }
    ensures { (result ≡ at + length owner.now + 26 + t.algorithm.size + length key.now + t.other.size)
        × Wrote (tkey_record owner.now (data_of m.now t key.now)) at buf.old buf.new result }
{
    let n = tkey_size(t, key.len());
    let a = record_front(buf, at, owner, 249, 255, 0, n);
    tkey_data(buf, a, m, t, key)
}

// The KEY record of the request, its owner name written out.
fn echo_record(buf: &mut [u8], at: usize, owner: &[u8], m: &[u8], e: KeyFields) -> usize
    requires { (at + length owner.now + 10 + e.content.size ≤ length buf.old) × (e.content.size < 65536) × EchoIn m.now e }
    ensures { (result ≡ at + length owner.now + 10 + e.content.size)
        × Wrote (echo_of m.now owner.now e) at buf.old buf.new result }
{
    let p = e.content;
    let a = record_front(buf, at, owner, e.kind, e.class, e.ttl, p.size);
    octets::part_into(buf, a, m, p.from, p.size)
}

// The key data of the answer: the offer, or a part of the request.
fn key_data<'a>(
    offered: bool,
    request: &'a [u8],
    from: usize,
    to: usize,
    offer: &'a [u8],
) -> &'a [u8]
    requires { (from ≤ to) × (to ≤ length request.now) }
    ensures { result.now ≡ key_data offered request.now from to offer.now }
{
    if offered { offer } else { &request[from..to] }
}

// The length of the reply to a TKEY request that is not granted a key, from numbers.
fn repeated_size(end: usize, owner: usize, t: Fields, key: usize) -> usize
    requires { (end < 65536) × (owner < 65536) × (key < 65536) × (t.algorithm.size < 65536) × (t.other.size < 65536) }
    ensures { result ≡ repeated_size end owner t key }
{
    end + owner + 10 + tkey_size(t, key)
}

// The same where a key is granted: the lent record and the echo come with it.
fn renewed_size(g: Grant, owner: usize, key: usize, second: usize, subject: usize) -> usize
    requires { (g.end < 65536) × (owner < 65536) × (key < 65536) × (g.fields.algorithm.size < 65536) × (g.fields.other.size < 65536)
        × (second < 65536) × (subject < 65536) × (g.echo.content.size < 65536) }
    ensures { result ≡ renewed_size g owner key second subject }
{
    let t = g.fields;
    repeated_size(g.end, owner, t, key) + second + subject + 10 + g.echo.content.size
}

fn repeated_into(
    buf: &mut [u8],
    m: &[u8],
    end: usize,
    answers: usize,
    additionals: usize,
    t: Fields,
    owner: &[u8],
    key: &[u8],
) -> usize
    requires { Read m.now end × FieldsIn m.now t × (answers < 65536) × (additionals < 65536)
        × (repeated_size end (length owner.now) t (length key.now) ≤ 65535)
        × (repeated_size end (length owner.now) t (length key.now) ≤ length buf.old) }
    ensures { (result ≡ repeated_size end (length owner.now) t (length key.now))
        × Wrote (repeated_octets m.now end answers additionals t owner.now key.now) 0 buf.old buf.new result }
{
    let a = head(buf, m, end, 0, answers, additionals);
    tkey_record(buf, a, owner, m, t, key)
}

fn renewed_into(
    buf: &mut [u8],
    m: &[u8],
    g: Grant,
    owner: &[u8],
    key: &[u8],
    second: &[u8],
    subject: &[u8],
) -> usize
    requires { Read m.now g.end × FieldsIn m.now g.fields × EchoIn m.now g.echo × (g.answers < 65536)
        × (renewed_size g (length owner.now) (length key.now) (length second.now) (length subject.now) ≤ 65535)
        × (renewed_size g (length owner.now) (length key.now) (length second.now) (length subject.now) ≤ length buf.old) }
    ensures { (result ≤ 65535)
        × Wrote (renewed_octets m.now g owner.now key.now second.now subject.now) 0 buf.old buf.new result }
{
    let t = g.fields;
    let e = g.echo;
    let a = repeated_into(buf, m, g.end, g.answers, 1, t, owner, key);
    let b = octets::all_into(buf, a, second);
    echo_record(buf, b, subject, m, e)
}

// RCODE alone (01, "The reply"): no record. How many octets it has; none where there is no room.
fn rcode_reply(buf: &mut [u8], m: &[u8], end: usize, rcode: usize) -> Option<usize>
    requires { Read m.now end × (rcode < 256) }
    ensures { Replied (rcode_reply (framed m.now end) rcode) buf.old buf.new result }
{
    if buf.len() < end {
        return None;
    }
    Some(head(buf, m, end, rcode, 0, 0))
}

fn repeated(
    buf: &mut [u8],
    m: &[u8],
    end: usize,
    t: Fields,
    owner: &[u8],
    key: &[u8],
) -> Option<usize>
    requires { Read m.now end × FieldsIn m.now t × (length owner.now < 65536) × (length key.now < 65536) }
    ensures { Replied (repeated_octets m.now end 1 0 t owner.now key.now) buf.old buf.new result }
{
    let n = repeated_size(end, owner.len(), t, key.len());
    if 65535 < n {
        return None;
    }
    if buf.len() < n {
        return None;
    }
    Some(repeated_into(buf, m, end, 1, 0, t, owner, key))
}

fn renewed(
    buf: &mut [u8],
    m: &[u8],
    g: Grant,
    owner: &[u8],
    key: &[u8],
    second: &[u8],
    subject: &[u8],
) -> Option<usize>
    requires { Read m.now g.end × FieldsIn m.now g.fields × EchoIn m.now g.echo × (g.answers < 65536)
        × (length owner.now < 65536) × (length key.now < 65536) × (length subject.now < 65536) }
    ensures { Replied (renewed_octets m.now g owner.now key.now second.now subject.now) buf.old buf.new result }
{
    if 65535 < second.len() {
        return None;
    }
    let n = renewed_size(g, owner.len(), key.len(), second.len(), subject.len());
    if 65535 < n {
        return None;
    }
    if buf.len() < n {
        return None;
    }
    Some(renewed_into(buf, m, g, owner, key, second, subject))
}

// ── The schemes of a renewal (02, CR 10) ────────────────────────────────────────────────────────────────────────────

// Whether the key data handed out is the offer; else it is the request's.
fn takes_offer(scheme: Scheme) -> bool
    ensures { result ≡ takes_offer scheme }
{
    match scheme {
        Scheme::DiffieHellman => true,
        Scheme::ServerAssignment => true,
        Scheme::ResolverAssignment => false,
    }
}

// Whether the lent record stands behind the TKEY.
pub fn lends_record(scheme: Scheme) -> bool
    ensures { result ≡ lends scheme }
{
    match scheme {
        Scheme::DiffieHellman => true,
        Scheme::ServerAssignment => false,
        Scheme::ResolverAssignment => false,
    }
}

// How many answers there are.
fn answer_count(scheme: Scheme) -> usize
    ensures { (result ≡ answers_of scheme) × (result < 65536) }
{
    if lends_record(scheme) { 2 } else { 1 }
}

// What stands behind the TKEY: the lent record, or nothing.
fn behind_tkey(scheme: Scheme, second: &[u8]) -> &[u8]
    ensures { result.now ≡ behind scheme second.now }
{
    if lends_record(scheme) {
        second
    } else {
        &second[..0]
    }
}

// The reply to a granted renewal, whose NAME is `owner`; `subject` is the echoed KEY's. None where there is no room.
fn grant_reply<'a>(
    buf: &mut [u8],
    m: &'a [u8],
    g: Grant,
    scheme: Scheme,
    owner: &[u8],
    offer: &'a [u8],
    second: &[u8],
    subject: &[u8],
) -> Option<usize>
    requires { Read m.now g.end × FieldsIn m.now g.fields × EchoIn m.now g.echo × (g.answers < 65536)
        × (length owner.now < 65536) × (length offer.now < 65536) × (length subject.now < 65536) }
    ensures { Replied (granted_octets scheme m.now g owner.now offer.now second.now subject.now) buf.old buf.new result }
{
    let from = g.fields.key.from;
    let to = from + g.fields.key.size;
    let key = key_data(takes_offer(scheme), m, from, to, offer);
    let behind = behind_tkey(scheme, second);
    renewed(buf, m, g, owner, key, behind, subject)
}

// The name at `place` of the message m, written out into `out`: how many octets it has; 0 where none can be read.
fn name_at(m: &[u8], out: &mut [u8; 255], place: usize) -> usize
    ensures { NameOut m.now place out.new result }
{
    match compression::read_name(m, out, place) {
        Err(_) => 0,
        Ok(Name { len, next: _ }) => len,
    }
}

// The TKEY that answers the request's: with this error number, and this other data.
fn answering(t: TkeyFields, error: usize, other: Span) -> Fields
    ensures { result ≡ answer_of t error other }
{
    let algorithm = t.algorithm;
    let key = t.key;
    Fields {
        algorithm,
        inception: t.inception,
        expiration: t.expiration,
        mode: t.mode as usize,
        error,
        key,
        other,
    }
}

// Other data of the answer: the request's, or none.
fn other_data(t: TkeyFields, again: bool) -> Span
    ensures { result ≡ other_of t again }
{
    if again {
        Span { from: 0, size: 0 }
    } else {
        t.other
    }
}

// The reply of a TKEY outcome that grants no key: the request's TKEY with this error; where the key was adopted already, without its other data.
fn outcome(buf: &mut [u8], m: &[u8], c: Contents, error: usize, again: bool) -> Option<usize>
    requires { ContentsRead m.now c × (error < 65536) }
    ensures { Replied (outcome_of m.now c.end c.tkey error again) buf.old buf.new result }
{
    let only = c.tkey;
    match only {
        None => Some(0),
        Some(OnlyTkey { place, fields }) => {
            let mut name = [0u8; 255];
            let n = name_at(m, &mut name, place);
            let all = &name[..];
            let owner = &all[0..n];
            let other = other_data(fields, again);
            let t = answering(fields, error, other);
            let key = records::part_of(m, fields.key);
            repeated(buf, m, c.end, t, owner, key)
        }
    }
}

// The TKEY that answers a granted renewal: the new key's times, modulo 2^32.
fn granting(t: TkeyFields, time: u64, expiry: u64) -> Fields
    ensures { result ≡ grant_of t time expiry }
{
    let algorithm = t.algorithm;
    let key = t.key;
    let other = t.other;
    Fields {
        algorithm,
        inception: (time % 4294967296) as usize,
        expiration: (expiry % 4294967296) as usize,
        mode: t.mode as usize,
        error: 0,
        key,
        other,
    }
}

// The reply to a granted renewal: the new key's name, its times, the key data, the lent record, and the echo.
fn renewal<'a>(
    buf: &mut [u8],
    m: &'a [u8],
    c: Contents,
    scheme: Scheme,
    offer: &'a [u8],
    second: &[u8],
    suffix: &[u8],
    at: Moment,
) -> Option<usize>
    requires { ContentsRead m.now c × (at.pair.next_serial < 2 ^ 32) × (at.time + at.pair.lifetime < 2 ^ 64)
        × (length suffix.now ≤ 128) × (length offer.now ≤ 1024) }
    ensures { Replied (renewal_octets scheme m.now c offer.now second.now at.pair suffix.now at.time) buf.old buf.new result }
{
    let only = c.tkey;
    let one = c.key;
    match only {
        None => Some(0),
        Some(OnlyTkey { place: _, fields }) => match one {
            None => Some(0),
            Some(
                OnlyKey {
                    place,
                    fields: echo,
                },
            ) => {
                let mut name = [0u8; 255];
                let mut subject = [0u8; 255];
                let k = names::key_name(&mut name, at.pair.next_serial, suffix);
                let n = name_at(m, &mut subject, place);
                let all = &name[..];
                let echoed = &subject[..];
                let t = granting(fields, at.time, at.time + at.pair.lifetime);
                let g = Grant {
                    end: c.end,
                    answers: answer_count(scheme),
                    fields: t,
                    echo,
                };
                grant_reply(buf, m, g, scheme, &all[0..k], offer, second, &echoed[0..n])
            }
        },
    }
}

// Whether a decision has no reply.
fn is_quiet(d: Decision) -> bool
    ensures { result ≡ is_quiet d }
{
    match d {
        Decision::Unsigned => true,
        Decision::Refused { rcode: _, error: _ } => false,
        Decision::Passed { skew: _ } => true,
        Decision::Failed { error: _ } => false,
        Decision::Renews(_, _) => false,
        Decision::Adopts => false,
        Decision::Readopts => false,
        Decision::Deletes => false,
        Decision::Withdraws => false,
    }
}

// The reply of a decision, written by its kind.
fn write<'a>(
    buf: &mut [u8],
    m: &'a [u8],
    c: Contents,
    d: Decision,
    offer: &'a [u8],
    second: &[u8],
    suffix: &[u8],
    at: Moment,
) -> Option<usize>
    requires { ContentsRead m.now c × DecisionFits d at.pair at.time × (length suffix.now ≤ 128) × (length offer.now ≤ 1024) }
    ensures { Replies m.now c offer.now second.now at.pair suffix.now at.time d buf.old buf.new result }
{
    match d {
        Decision::Unsigned => Some(0),
        Decision::Refused { rcode, error: _ } => rcode_reply(buf, m, c.end, rcode as usize),
        Decision::Passed { skew: _ } => Some(0),
        Decision::Failed { error } => outcome(buf, m, c, error as usize, false),
        Decision::Renews(scheme, _) => renewal(buf, m, c, scheme, offer, second, suffix, at),
        Decision::Adopts => outcome(buf, m, c, 0, false),
        Decision::Readopts => outcome(buf, m, c, 0, true),
        Decision::Deletes => outcome(buf, m, c, 0, false),
        Decision::Withdraws => outcome(buf, m, c, 0, false),
    }
}

// The reply to the message m (01, "The reply"), which says c, by what was decided: how many octets it has. None and nothing is written where there is no room. A message
// that is passed up has no reply: 0, and nothing of what was read is handed on.
pub fn reply<'a>(
    buf: &mut [u8],
    m: &'a [u8],
    c: Contents,
    d: Decision,
    offer: &'a [u8],
    second: &[u8],
    suffix: &[u8],
    at: Moment,
) -> Option<usize>
    requires { ContentsRead m.now c × DecisionFits d at.pair at.time × (length suffix.now ≤ 128) × (length offer.now ≤ 1024) }
    ensures { Replies m.now c offer.now second.now at.pair suffix.now at.time d buf.old buf.new result }
{
    if is_quiet(d) {
        return Some(0);
    }
    write(buf, m, c, d, offer, second, suffix, at)
}
