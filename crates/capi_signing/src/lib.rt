// The signing calls, for C and Rust to link: numbers, lent arrays and lent slices alone. include/luffcringle.h declares them. Each takes every value of
// every argument and returns its number. What it writes fills the first octets of `out`, as many as the word in `written` says; the rest keep their contents. A
// refusal writes none and says 0 there. No MAC is calculated here: a caller has it over the octets that a digest call writes.
#![tactic(auto)]

ghost use Rattle.std.specs.Prelude.{◌≡◌, List, ℕ, length};
ghost use Rattle.model.specs.Signing.{digested_request, digested_reply, finished_in, removed_in};
ghost use Rattle.model.specs.Received.{received_request, received_reply, received_later, digested_later};
ghost use Rattle.digests.specs.Left.{number_in};
ghost use Rattle.capi_signing.specs.Written.{stamp, Counted, LeftTo, words_in, ReadTo};

use digests::{Refusal, TsigNumbers};
use receiving::TsigParts;

// ── Answers ─────────────────────────────────────────────────────────────────────────────────────────────────────────

fn tell(written: &mut [u64; 1], a: Result<usize, Refusal>) -> u64
    ensures { Counted a written.new result }
{
    match a {
        Ok(length) => {
            *written = [length as u64];
            0
        }
        Err(refusal) => {
            *written = [0];
            refusal.number()
        }
    }
}

fn tell_parts(words: &mut [u64; 10], a: Result<TsigParts, Refusal>) -> u64
    ensures { (words.new ≡ words_in a) × (result ≡ number_in a) }
{
    match a {
        Ok(TsigParts { named, fields: f }) => {
            *words = [
                named as u64,
                f.algorithm.size as u64,
                f.signed as u64,
                f.fudge as u64,
                f.mac.from as u64,
                f.mac.size as u64,
                f.id as u64,
                f.error as u64,
                f.other.from as u64,
                f.other.size as u64,
            ];
            0
        }
        Err(refusal) => {
            *words = [0; 10];
            refusal.number()
        }
    }
}

fn numbers(signed: u64, fudge: u16, original_id: u16, error: u16) -> TsigNumbers
    ensures { result ≡ record { signed = signed; fudge = fudge; original_id = original_id; error = error } }
{
    TsigNumbers {
        signed,
        fudge,
        original_id,
        error,
    }
}

// ── To sign a message ───────────────────────────────────────────────────────────────────────────────────────────────

// What is under the MAC of a request, which has no TSIG yet. Refused, in this order, with SIZE (4), FORMAT (6), also where a TSIG stands already, NAME (12),
// TIME (2), ROOM (8), also for other data over 65,535 octets.
#[unsafe(no_mangle)]
pub extern "C" fn luffcringle_digest_request(
    message: &[u8],
    name: &[u8],
    algorithm: &[u8],
    signed: u64,
    fudge: u16,
    original_id: u16,
    error: u16,
    other: &[u8],
    out: &mut [u8],
    written: &mut [u64; 1],
) -> u64
    ensures { (mac : List ℕ) → LeftTo
        (digested_request message.now name.now (stamp signed fudge original_id error algorithm.now mac other.now)
        (length out.old)) out.old out.new written.new result }
{
    let n = numbers(signed, fudge, original_id, error);
    let a = signing::digest_request(message, name, algorithm, n, other, out);
    tell(written, a)
}

// What is under the MAC of a reply to a request with the MAC `request_mac`. Refused as luffcringle_digest_request, with MACSIZE (16) before ROOM, for a MAC
// over 64 octets.
#[unsafe(no_mangle)]
pub extern "C" fn luffcringle_digest_reply(
    request_mac: &[u8],
    message: &[u8],
    name: &[u8],
    algorithm: &[u8],
    signed: u64,
    fudge: u16,
    original_id: u16,
    error: u16,
    other: &[u8],
    out: &mut [u8],
    written: &mut [u64; 1],
) -> u64
    ensures { (mac : List ℕ) → LeftTo
        (digested_reply request_mac.now message.now name.now
        (stamp signed fudge original_id error algorithm.now mac other.now)
        (length out.old)) out.old out.new written.new result }
{
    let n = numbers(signed, fudge, original_id, error);
    let a = signing::digest_reply(request_mac, message, name, algorithm, n, other, out);
    tell(written, a)
}

// What is under the MAC of a later message of a stream (RFC 8945, 5.3.1): `prior_mac` is the MAC of the last message that had a TSIG, `before` the messages
// without one since then, one after another. The names, the error and other data of its TSIG are not under it. Refused, in this order, with SIZE (4), FORMAT
// (6), also where a TSIG stands already, TIME (2), MACSIZE (16), ROOM (8).
#[unsafe(no_mangle)]
pub extern "C" fn luffcringle_digest_later(
    prior_mac: &[u8],
    before: &[u8],
    message: &[u8],
    signed: u64,
    fudge: u16,
    original_id: u16,
    out: &mut [u8],
    written: &mut [u64; 1],
) -> u64
    ensures { (error : ℕ) (algorithm mac other : List ℕ) → LeftTo
        (digested_later prior_mac.now before.now message.now (stamp signed fudge original_id error algorithm mac other)
        (length out.old)) out.old out.new written.new result }
{
    let n = numbers(signed, fudge, original_id, 0);
    let a = signing::digest_later(prior_mac, before, message, n, out);
    tell(written, a)
}

// The message with a TSIG appended that has this MAC. Refused, in this order, with SIZE (4), FORMAT (6), also where a TSIG stands already, NAME (12), TIME (2),
// MACSIZE (16), ROOM (8), also for a finished message over 65,535 octets.
#[unsafe(no_mangle)]
pub extern "C" fn luffcringle_finish(
    message: &[u8],
    name: &[u8],
    algorithm: &[u8],
    signed: u64,
    fudge: u16,
    original_id: u16,
    error: u16,
    mac: &[u8],
    other: &[u8],
    out: &mut [u8],
    written: &mut [u64; 1],
) -> u64
    ensures { LeftTo
        (finished_in message.now name.now
        (stamp signed fudge original_id error algorithm.now mac.now other.now)
        (length out.old)) out.old out.new written.new result }
{
    let n = numbers(signed, fudge, original_id, error);
    let a = signing::finish(message, name, algorithm, n, mac, other, out);
    tell(written, a)
}

// ── Of a message as it was received ─────────────────────────────────────────────────────────────────────────────────

// The message without its TSIG, one additional record less in its header, and its ID as it is. Refused, in this order, with SIZE (4), FORMAT (6), also where no
// TSIG is well placed, ROOM (8).
#[unsafe(no_mangle)]
pub extern "C" fn luffcringle_remove(message: &[u8], out: &mut [u8], written: &mut [u64; 1]) -> u64
    ensures { LeftTo (removed_in message.now (length out.old)) out.old out.new written.new result }
{
    let a = unsigning::remove(message, out);
    tell(written, a)
}

// What is under the MAC of a request as it was received. Refused, in this order, with SIZE (4), FORMAT (6), also where no TSIG is well placed, ROOM (8).
#[unsafe(no_mangle)]
pub extern "C" fn luffcringle_received_request(
    message: &[u8],
    out: &mut [u8],
    written: &mut [u64; 1],
) -> u64
    ensures { LeftTo (received_request message.now (length out.old))
        out.old out.new written.new result }
{
    let a = receiving::received_request(message, out);
    tell(written, a)
}

// What is under the MAC of a reply as it was received, to a request with the MAC `request_mac`. Refused, in this order, with SIZE (4), FORMAT (6), also where
// no TSIG is well placed, MACSIZE (16), for a MAC over 64 octets, ROOM (8).
#[unsafe(no_mangle)]
pub extern "C" fn luffcringle_received_reply(
    request_mac: &[u8],
    message: &[u8],
    out: &mut [u8],
    written: &mut [u64; 1],
) -> u64
    ensures { LeftTo (received_reply request_mac.now message.now (length out.old))
        out.old out.new written.new result }
{
    let a = receiving::received_reply(request_mac, message, out);
    tell(written, a)
}

// What is under the MAC of a later message of a stream as it was received; `prior_mac` and `before` as luffcringle_digest_later has them. Refused, in this
// order, with SIZE (4), FORMAT (6), also where no TSIG is well placed, MACSIZE (16), ROOM (8).
#[unsafe(no_mangle)]
pub extern "C" fn luffcringle_received_later(
    prior_mac: &[u8],
    before: &[u8],
    message: &[u8],
    out: &mut [u8],
    written: &mut [u64; 1],
) -> u64
    ensures { LeftTo (received_later prior_mac.now before.now message.now (length out.old))
        out.old out.new written.new result }
{
    let a = receiving::received_later(prior_mac, before, message, out);
    tell(written, a)
}

// The TSIG of a message as it was received: its owner name and its algorithm's name fill the first octets of the two arrays, and the rest keep their contents.
// Ten words say the rest: the two names' lengths, time signed, fudge, where the MAC stands in the message and its size, original ID, error, where other data
// stand and their size. Refused, in this order, with SIZE (4), FORMAT (6), also where no TSIG is well placed: then the words are 0 and the arrays keep their
// contents.
#[unsafe(no_mangle)]
pub extern "C" fn luffcringle_read_tsig(
    message: &[u8],
    name: &mut [u8; 255],
    algorithm: &mut [u8; 255],
    fields: &mut [u64; 10],
) -> u64
    ensures { ReadTo message.now name.old algorithm.old
        name.new algorithm.new fields.new result }
{
    let p = receiving::tsig_read(message, name, algorithm);
    tell_parts(fields, p)
}
