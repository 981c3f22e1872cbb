// The writing calls of CR 3 (02; RFC 8945, 4.2 and 4.3): the digest of a request and of a reply, and the finished message; and the digest of a later message of
// a stream (5.3.1). Every value of every argument is accepted. The contracts are equations with the crate model's Signing and Received.
#![tactic(auto)]

ghost use Rattle.std.specs.Prelude.{◌≡◌, List, ℕ, ◌+◌, ◌≤◌, ◌<◌, ◌^◌, length};
ghost use Rattle.model.specs.Tsig.{tsig_type, any_class};
ghost use Rattle.model.specs.Replies.{record_octets};
ghost use Rattle.model.specs.Signing.{tsig_data, digested_request, digested_reply, finished_in};
ghost use Rattle.model.specs.Received.{digested_later};
ghost use Rattle.octets.specs.Wrote.{Wrote};
ghost use Rattle.digests.specs.Stamps.{stamp_of};
ghost use Rattle.digests.specs.Left.{number_in, Left};
ghost use Rattle.signing.specs.Assembling.{Sized, Bare, Fit, Passes, counted_octets, later_in};

use digests::{Refusal, TsigNumbers};
use tsig::Signer;

// MACSIZE: the octets that a given MAC may have.
const LONGEST_MAC: usize = 64;

// ── Refusals ────────────────────────────────────────────────────────────────────────────────────────────────────────

// SIZE, FORMAT of a message that is to be signed: no TSIG may stand in it yet.
fn message_refusal(m: &[u8]) -> Result<(), Refusal>
    ensures { Bare m.now (number_in result) }
{
    let c = contents::read(m)?;
    let signer = c.signer;
    match signer {
        Signer::Nobody => Ok(()),
        Signer::Ill => Err(Refusal::Format),
        Signer::Key {
            place: _,
            fields: _,
        } => Err(Refusal::Format),
    }
}

// SIZE, FORMAT, NAME, TIME.
fn first_refusal(m: &[u8], name: &[u8], algorithm: &[u8], signed: u64) -> Result<(), Refusal>
    ensures { Passes m.now name.now algorithm.now signed (number_in result) }
{
    message_refusal(m)?;
    if !names::wire_name(name) || !names::wire_name(algorithm) {
        return Err(Refusal::Name);
    }
    if 0x1_0000_0000_0000 <= signed {
        return Err(Refusal::Time);
    }
    Ok(())
}

// ── The digest of a request ─────────────────────────────────────────────────────────────────────────────────────────

// ROOM, done, of a request that passed the refusals before.
fn request_in(
    m: &[u8],
    name: &[u8],
    algorithm: &[u8],
    numbers: TsigNumbers,
    other: &[u8],
    out: &mut [u8],
) -> Result<usize, Refusal>
    requires { Passes m.now name.now algorithm.now numbers.signed 0 × Fit m.now name.now algorithm.now numbers.signed }
    ensures { (mac : List ℕ) → Left (digested_request m.now name.now (stamp_of numbers algorithm.now mac other.now)
        (length out.old)) out.old out.new result }
{
    if 65535 < other.len() {
        return Err(Refusal::Room);
    }
    if out.len() < m.len() + name.len() + algorithm.len() + 18 + other.len() {
        return Err(Refusal::Room);
    }
    Ok(digests::digest_into(out, 0, m, name, algorithm, numbers, other))
}

// The digest of a request m, which has no TSIG yet. Refused, in this order, with SIZE (4), FORMAT (6), NAME (12), TIME (2), ROOM (8).
pub fn digest_request(
    m: &[u8],
    name: &[u8],
    algorithm: &[u8],
    numbers: TsigNumbers,
    other: &[u8],
    out: &mut [u8],
) -> Result<usize, Refusal>
    ensures { (mac : List ℕ) → Left (digested_request m.now name.now (stamp_of numbers algorithm.now mac other.now)
        (length out.old)) out.old out.new result }
{
    first_refusal(m, name, algorithm, numbers.signed)?;
    request_in(m, name, algorithm, numbers, other, out)
}

// ── The digest of a reply ───────────────────────────────────────────────────────────────────────────────────────────

// MACSIZE, ROOM, done, of a reply that passed the refusals before.
fn reply_in(
    mac: &[u8],
    m: &[u8],
    name: &[u8],
    algorithm: &[u8],
    numbers: TsigNumbers,
    other: &[u8],
    out: &mut [u8],
) -> Result<usize, Refusal>
    requires { Passes m.now name.now algorithm.now numbers.signed 0 × Fit m.now name.now algorithm.now numbers.signed }
    ensures { (own : List ℕ) → Left (digested_reply mac.now m.now name.now
        (stamp_of numbers algorithm.now own other.now) (length out.old)) out.old out.new result }
{
    if LONGEST_MAC < mac.len() {
        return Err(Refusal::MacSize);
    }
    if 65535 < other.len() {
        return Err(Refusal::Room);
    }
    if out.len() < mac.len() + m.len() + name.len() + algorithm.len() + 20 + other.len() {
        return Err(Refusal::Room);
    }
    let a = octets::u16_into(out, 0, mac.len());
    let b = octets::all_into(out, a, mac);
    Ok(digests::digest_into(out, b, m, name, algorithm, numbers, other))
}

// The digest of a reply m to a request with this MAC. Refused as above, with MACSIZE (16) before ROOM.
pub fn digest_reply(
    mac: &[u8],
    m: &[u8],
    name: &[u8],
    algorithm: &[u8],
    numbers: TsigNumbers,
    other: &[u8],
    out: &mut [u8],
) -> Result<usize, Refusal>
    ensures { (own : List ℕ) → Left (digested_reply mac.now m.now name.now
        (stamp_of numbers algorithm.now own other.now) (length out.old)) out.old out.new result }
{
    first_refusal(m, name, algorithm, numbers.signed)?;
    reply_in(mac, m, name, algorithm, numbers, other, out)
}

// ── The digest of a later message of a stream ───────────────────────────────────────────────────────────────────────

// MACSIZE, ROOM, done, of a message that passed the refusals before. `before` may have any length, so that nothing is added to it.
fn later_in(
    prior: &[u8],
    before: &[u8],
    m: &[u8],
    numbers: TsigNumbers,
    out: &mut [u8],
) -> Result<usize, Refusal>
    requires { Sized m.now × (numbers.signed < 2 ^ 48) }
    ensures { (algorithm mac other : List ℕ) → Left
        (later_in prior.now before.now m.now (stamp_of numbers algorithm mac other) (length out.old)) out.old out.new result }
{
    if LONGEST_MAC < prior.len() {
        return Err(Refusal::MacSize);
    }
    if out.len() < before.len() {
        return Err(Refusal::Room);
    }
    if out.len() - before.len() < prior.len() + m.len() + 10 {
        return Err(Refusal::Room);
    }
    let a = digests::prior_into(out, prior, before);
    let b = octets::u16_into(out, a, numbers.original_id as usize);
    let d = octets::all_into(out, b, &m[2..]);
    Ok(digests::signed_into(out, d, numbers))
}

// The digest of a later message m of a stream, which has no TSIG yet (RFC 8945, 5.3.1): `prior` is the MAC of the last message that had one, `before` the
// messages without one since then, one after another. Of the TSIG, error and other data are not under its MAC, nor are its names. Refused, in this order, with
// SIZE (4), FORMAT (6), TIME (2), MACSIZE (16), ROOM (8).
pub fn digest_later(
    prior: &[u8],
    before: &[u8],
    m: &[u8],
    numbers: TsigNumbers,
    out: &mut [u8],
) -> Result<usize, Refusal>
    ensures { (algorithm mac other : List ℕ) → Left
        (digested_later prior.now before.now m.now (stamp_of numbers algorithm mac other) (length out.old)) out.old out.new result }
{
    message_refusal(m)?;
    if 0x1_0000_0000_0000 <= numbers.signed {
        return Err(Refusal::Time);
    }
    later_in(prior, before, m, numbers, out)
}

// ── The finished message ────────────────────────────────────────────────────────────────────────────────────────────

// The message m with one more additional record counted.
fn counted_into(buf: &mut [u8], m: &[u8]) -> usize
    requires { (length m.now ≤ length buf.old) × Sized m.now }
    ensures { (result ≡ length m.now) × Wrote (counted_octets m.now) 0 buf.old buf.new result }
{
    digests::counted_into(buf, m, octets::u16_at(m, 10) + 1, m.len())
}

// The TSIG.
fn tsig_into(
    buf: &mut [u8],
    at: usize,
    name: &[u8],
    algorithm: &[u8],
    numbers: TsigNumbers,
    mac: &[u8],
    other: &[u8],
) -> usize
    requires { (at + length name.now + length algorithm.now + length mac.now + 26 + length other.now ≤ length buf.old) × (numbers.signed < 2 ^ 48)
        × (length mac.now ≤ 64) × (length algorithm.now + length mac.now + 16 + length other.now < 65536) }
    ensures { Wrote
        (record_octets name.now tsig_type any_class 0 (tsig_data (stamp_of numbers algorithm.now mac.now other.now)))
        at buf.old buf.new result }
{
    let n = algorithm.len() + mac.len() + 16 + other.len();
    let a = replies::record_front(buf, at, name, 250, 255, 0, n);
    digests::data_into(buf, a, algorithm, numbers, mac, other)
}

// MACSIZE, ROOM, done, of a message that passed the refusals before.
fn finish_in(
    m: &[u8],
    name: &[u8],
    algorithm: &[u8],
    numbers: TsigNumbers,
    mac: &[u8],
    other: &[u8],
    out: &mut [u8],
) -> Result<usize, Refusal>
    requires { Passes m.now name.now algorithm.now numbers.signed 0 × Fit m.now name.now algorithm.now numbers.signed }
    ensures { Left (finished_in m.now name.now (stamp_of numbers algorithm.now mac.now other.now)
        (length out.old)) out.old out.new result }
{
    if LONGEST_MAC < mac.len() {
        return Err(Refusal::MacSize);
    }
    if 65535 < other.len() {
        return Err(Refusal::Room);
    }
    let size = m.len() + name.len() + algorithm.len() + mac.len() + 26 + other.len();
    if 65535 < size {
        return Err(Refusal::Room);
    }
    if out.len() < size {
        return Err(Refusal::Room);
    }
    let a = counted_into(out, m);
    Ok(tsig_into(out, a, name, algorithm, numbers, mac, other))
}

// The finished message: m with a TSIG appended that has this MAC. Refused, in this order, with SIZE (4), FORMAT (6), NAME (12), TIME (2), MACSIZE (16), ROOM (8).
pub fn finish(
    m: &[u8],
    name: &[u8],
    algorithm: &[u8],
    numbers: TsigNumbers,
    mac: &[u8],
    other: &[u8],
    out: &mut [u8],
) -> Result<usize, Refusal>
    ensures { Left (finished_in m.now name.now (stamp_of numbers algorithm.now mac.now other.now)
        (length out.old)) out.old out.new result }
{
    first_refusal(m, name, algorithm, numbers.signed)?;
    finish_in(m, name, algorithm, numbers, mac, other, out)
}
