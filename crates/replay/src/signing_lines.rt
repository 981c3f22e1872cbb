// The script's lines that are done to octets alone: the signing calls.
use crate::print::{Hex, Text, front};
use crate::table_lines::{MOST_OF_OCTETS, lent};
use digests::{Refusal, TsigNumbers};
use script::{SigningCall, Unsigned, spanned};
use std::fmt;
use std::fmt::Write;
use unsigning::TsigRead;

fn numbers(u: Unsigned) -> TsigNumbers {
    TsigNumbers {
        signed: u.signed,
        fudge: u.fudge,
        original_id: u.id,
        error: u.error,
    }
}

fn digest_request(u: Unsigned, out: &mut [u8]) -> Result<usize, Refusal> {
    let out = lent(out, u.room, MOST_OF_OCTETS);
    signing::digest_request(u.message, u.name, u.algorithm, numbers(u), u.other, out)
}

fn digest_reply(mac: &[u8], u: Unsigned, out: &mut [u8]) -> Result<usize, Refusal> {
    let out = lent(out, u.room, MOST_OF_OCTETS);
    signing::digest_reply(
        mac,
        u.message,
        u.name,
        u.algorithm,
        numbers(u),
        u.other,
        out,
    )
}

fn finish(u: Unsigned, mac: &[u8], out: &mut [u8]) -> Result<usize, Refusal> {
    let out = lent(out, u.room, MOST_OF_OCTETS);
    signing::finish(
        u.message,
        u.name,
        u.algorithm,
        numbers(u),
        mac,
        u.other,
        out,
    )
}

// The octets of the name at a place of the message m, written out at the front of the array: how many, 0 where it cannot be read.
fn name_into(m: &[u8], place: usize, name: &mut [u8; 255]) -> usize {
    compression::expand_name(m, name, place).map_or(0, |read| read.len)
}

// NUMBER NAME ALGORITHM SIGNED FUDGE MAC ID ERROR OTHER of the TSIG that was read in the message m.
fn tsig_line(m: &[u8], tsig: TsigRead, text: &mut Text) -> fmt::Result {
    let f = tsig.fields;
    let mut array = [0u8; 255];
    let size = name_into(m, tsig.place, &mut array);
    let name = Hex(front(&array[..], size));
    let algorithm = Hex(spanned(m, f.algorithm));
    let mac = Hex(spanned(m, f.mac));
    let other = Hex(spanned(m, f.other));
    write!(text, "0 {name} {algorithm} {} {} ", f.signed, f.fudge)?;
    writeln!(text, "{mac} {} {} {other}", f.id, f.error)
}

fn read_back(m: &[u8], text: &mut Text) -> fmt::Result {
    match unsigning::read_back(m) {
        Ok(tsig) => tsig_line(m, tsig, text),
        Err(refusal) => writeln!(text, "{} - - 0 0 - 0 0 -", refusal.number()),
    }
}

// Does a signing call and prints what it answers. What a writing call writes stands at the front of out.
pub fn signing_line(call: SigningCall, out: &mut [u8], text: &mut Text) -> fmt::Result {
    let made = match call {
        SigningCall::DigestRequest { unsigned } => digest_request(unsigned, out),
        SigningCall::DigestReply { unsigned, mac } => digest_reply(mac, unsigned, out),
        SigningCall::Finish { unsigned, mac } => finish(unsigned, mac, out),
        SigningCall::Remove { message, room } => unsigning::remove(
            message,
            lent(out, room, MOST_OF_OCTETS),
        ),
        SigningCall::ReadBack { message } => return read_back(message, text),
    };
    match made {
        Ok(length) => writeln!(text, "0 {length} {}", Hex(front(out, length))),
        Err(refusal) => writeln!(text, "{} 0 -", refusal.number()),
    }
}
