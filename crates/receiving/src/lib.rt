// The octets under the MAC of a message as it was received, straight from it (RFC 8945, 4.3 and 5.3.1), and its TSIG with the names written out. Every value of
// every argument is accepted. The contracts are equations with the crate model's Received and Signing.
#![tactic(auto)]

ghost use Rattle.std.specs.Prelude.{◌≡◌, ◌+◌, ◌≤◌, ◌<◌, length};
ghost use Rattle.model.specs.Signing.{with_id, request_digest, removed};
ghost use Rattle.model.specs.Received.{stamp_in, received_request, received_reply, received_later};
ghost use Rattle.octets.specs.Wrote.{Wrote};
ghost use Rattle.matching.specs.Compare.{name_standing};
ghost use Rattle.digests.specs.Left.{Left};
ghost use Rattle.unsigning.specs.Unsigning.{tsig_at, TsigStands};
ghost use Rattle.receiving.specs.Receiving.{numbers_in, request_room, reply_room, later_room, TsigTold};

use digests::{Refusal, TsigNumbers};
use tsig::TsigFields;
use unsigning::TsigRead;

// MACSIZE: the octets that a given MAC may have.
const LONGEST_MAC: usize = 64;

// ── Pieces of the message ───────────────────────────────────────────────────────────────────────────────────────────

// The name at `place` of the message m, written out into `out`; no octets where none can be read.
fn name_at<'a>(m: &[u8], out: &'a mut [u8; 255], place: usize) -> &'a [u8]
    ensures { (result.now ≡ name_standing m.now place) × (length result.now ≤ 255) }
{
    let len = compression::expand_name(m, out, place).map_or(0, |name| name.len);
    &out[..len]
}

// The message m without its TSIG, under the TSIG's original ID.
fn cut_into(buf: &mut [u8], at: usize, m: &[u8], tsig: TsigRead) -> usize
    requires { TsigStands m.now tsig × (at + tsig.place ≤ length buf.old) }
    ensures { (result ≡ at + tsig.place) × Wrote (with_id tsig.fields.id (removed m.now)) at buf.old buf.new result }
{
    let count = octets::u16_at(m, 10) - 1;
    digests::renumbered_into(buf, at, m, tsig.fields.id, count, tsig.place)
}

fn numbers_of(f: TsigFields) -> TsigNumbers
    requires { (f.fudge < 65536) × (f.id < 65536) × (f.error < 65536) }
    ensures { result ≡ numbers_in f }
{
    TsigNumbers {
        signed: f.signed as u64,
        fudge: f.fudge as u16,
        original_id: f.id as u16,
        error: f.error as u16,
    }
}

// The digest of a request, from `at` on: the message m without its TSIG, whose owner name is this one.
fn digest_at(buf: &mut [u8], at: usize, m: &[u8], tsig: TsigRead, name: &[u8]) -> usize
    requires { TsigStands m.now tsig
        × (at + tsig.place + length name.now + tsig.fields.algorithm.size + 18 + tsig.fields.other.size ≤ length buf.old) }
    ensures { Wrote (request_digest (removed m.now) name.now (stamp_in (tsig_at m.now tsig))) at
        buf.old buf.new result }
{
    let f = tsig.fields;
    let algorithm = f.algorithm;
    let other = f.other;
    let a = cut_into(buf, at, m, tsig);
    let hash = records::part_of(m, algorithm);
    let rest = records::part_of(m, other);
    digests::variables_into(buf, a, name, hash, numbers_of(f), rest)
}

// ── A request ───────────────────────────────────────────────────────────────────────────────────────────────────────

// ROOM, or the digest of a request with this TSIG, whose owner name may be compressed.
fn request_at(m: &[u8], tsig: TsigRead, out: &mut [u8]) -> Result<usize, Refusal>
    requires { TsigStands m.now tsig }
    ensures { Left (request_room m.now (tsig_at m.now tsig) (length out.old)) out.old out.new result }
{
    let mut array = [0u8; 255];
    let name = name_at(m, &mut array, tsig.place);
    let f = tsig.fields;
    if out.len() < tsig.place + name.len() + f.algorithm.size + 18 + f.other.size {
        return Err(Refusal::Room);
    }
    Ok(digest_at(out, 0, m, tsig, name))
}

// The octets under the MAC of a request m as it was received: m without its TSIG, under the TSIG's original ID, and the TSIG's own variables. Refused, in this
// order, with SIZE (4), FORMAT (6), the latter too where no TSIG is well placed, ROOM (8).
pub fn received_request(m: &[u8], out: &mut [u8]) -> Result<usize, Refusal>
    ensures { Left (received_request m.now (length out.old)) out.old out.new result }
{
    let tsig = unsigning::read_back(m)?;
    request_at(m, tsig, out)
}

// ── A reply ─────────────────────────────────────────────────────────────────────────────────────────────────────────

// MACSIZE, ROOM, or the digest of a reply with this TSIG, whose owner name may be compressed.
fn reply_at(mac: &[u8], m: &[u8], tsig: TsigRead, out: &mut [u8]) -> Result<usize, Refusal>
    requires { TsigStands m.now tsig }
    ensures { Left (reply_room mac.now m.now (tsig_at m.now tsig) (length out.old)) out.old out.new result }
{
    if LONGEST_MAC < mac.len() {
        return Err(Refusal::MacSize);
    }
    let mut array = [0u8; 255];
    let name = name_at(m, &mut array, tsig.place);
    let f = tsig.fields;
    if out.len() < mac.len() + tsig.place + name.len() + f.algorithm.size + 20 + f.other.size {
        return Err(Refusal::Room);
    }
    let a = octets::u16_into(out, 0, mac.len());
    let b = octets::all_into(out, a, mac);
    Ok(digest_at(out, b, m, tsig, name))
}

// The octets under the MAC of a reply m as it was received, to a request with the MAC `mac`. Refused as above, with MACSIZE (16) before ROOM.
pub fn received_reply(mac: &[u8], m: &[u8], out: &mut [u8]) -> Result<usize, Refusal>
    ensures { Left (received_reply mac.now m.now (length out.old)) out.old out.new result }
{
    let tsig = unsigning::read_back(m)?;
    reply_at(mac, m, tsig, out)
}

// ── A later message of a stream ─────────────────────────────────────────────────────────────────────────────────────

// MACSIZE, ROOM, or the digest of a later message with this TSIG. `before` may have any length, so that nothing is added to it.
fn later_at(
    prior: &[u8],
    before: &[u8],
    m: &[u8],
    tsig: TsigRead,
    out: &mut [u8],
) -> Result<usize, Refusal>
    requires { TsigStands m.now tsig }
    ensures { Left (later_room prior.now before.now m.now (tsig_at m.now tsig) (length out.old))
        out.old out.new result }
{
    if LONGEST_MAC < prior.len() {
        return Err(Refusal::MacSize);
    }
    if out.len() < before.len() {
        return Err(Refusal::Room);
    }
    if out.len() - before.len() < prior.len() + tsig.place + 10 {
        return Err(Refusal::Room);
    }
    let a = digests::prior_into(out, prior, before);
    let b = cut_into(out, a, m, tsig);
    Ok(digests::signed_into(out, b, numbers_of(tsig.fields)))
}

// The octets under the MAC of a later message m of a stream as it was received (RFC 8945, 5.3.1): `prior` is the MAC of the last message that had a TSIG,
// `before` the messages without one since then, one after another. Refused, in this order, with SIZE (4), FORMAT (6), MACSIZE (16), ROOM (8).
pub fn received_later(
    prior: &[u8],
    before: &[u8],
    m: &[u8],
    out: &mut [u8],
) -> Result<usize, Refusal>
    ensures { Left (received_later prior.now before.now m.now (length out.old))
        out.old out.new result }
{
    let tsig = unsigning::read_back(m)?;
    later_at(prior, before, m, tsig, out)
}

// ── The TSIG ────────────────────────────────────────────────────────────────────────────────────────────────────────

// The TSIG of a message: its owner name fills the first `named` octets of one lent array, its algorithm's name as many of another as it has in the message. Its
// MAC and its other data stand in the message.
#[derive(Clone, Copy)]
pub struct TsigParts {
    pub named: usize,
    pub fields: TsigFields,
}

// The name that stands at `place`, written out at the front of the lent octets, of which it has so many.
fn name_into(m: &[u8], place: usize, out: &mut [u8]) -> usize
    requires { 255 ≤ length out.old }
    ensures { Wrote (name_standing m.now place) 0 out.old out.new result }
{
    let mut array = [0u8; 255];
    octets::all_into(out, 0, name_at(m, &mut array, place))
}

// The TSIG of the message m as it was received, its names written out at the front of the lent arrays; the rest of these keeps its contents. Refused, in this
// order, with SIZE (4), FORMAT (6), the latter too where no TSIG is well placed: then both arrays keep theirs.
pub fn tsig_read(
    m: &[u8],
    name: &mut [u8; 255],
    algorithm: &mut [u8; 255],
) -> Result<TsigParts, Refusal>
    ensures { TsigTold m.now name.old algorithm.old name.new algorithm.new result }
{
    let TsigRead { place, fields } = unsigning::read_back(m)?;
    let named = name_into(m, place, &mut name[..]);
    octets::all_into(&mut algorithm[..], 0, records::part_of(m, fields.algorithm));
    Ok(TsigParts { named, fields })
}
