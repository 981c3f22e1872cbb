// The script's lines that are done to the resolver.
use crate::print::{Hex, Text, front};
use crate::table_lines::{MOST_OF_MESSAGE, lent};
use model::{
    Algorithm, Asking, Heard, Holding, OpenRequest, Resolver, ResolverKey, Sending, SignWith,
};
use script::ResolverCall;
use std::fmt;
use std::fmt::Write;

// ── The resolver that is handed a key ───────────────────────────────────────────────────────────────────────────────

fn key(name: &[u8], algorithm: Algorithm, inception: u32, expiration: u32) -> ResolverKey {
    let mut array = [0u8; 255];
    let length = name.len().min(255);
    array[..length].copy_from_slice(&name[..length]);
    ResolverKey {
        name: array,
        length,
        algorithm,
        inception,
        expiration,
    }
}

fn holder(holding: Holding, key: ResolverKey) -> Resolver {
    Resolver {
        holding,
        adopted: key,
        offered: key,
        awaited: None,
        offered_signs: false,
    }
}

// The resolver that a run starts with.
pub fn newcomer() -> Resolver {
    holder(Holding::Nothing, key(b"", Algorithm::Sha256, 0, 0))
}

// ── What is printed ─────────────────────────────────────────────────────────────────────────────────────────────────

// NUMBER LENGTH SIGNER OCTETS
fn sent(s: &mut Resolver, sending: Sending, out: &[u8], text: &mut Text) -> fmt::Result {
    *s = sending.state;
    let signer = match sending.signer {
        SignWith::Nobody => "-",
        SignWith::AdoptedKey => "adopted",
        SignWith::OfferedKey => "offered",
    };
    let octets = Hex(front(out, sending.length as usize));
    writeln!(
        text,
        "{} {} {signer} {octets}",
        sending.number, sending.length
    )
}

// NUMBER DUE
fn heard(s: &mut Resolver, heard: Heard, text: &mut Text) -> fmt::Result {
    *s = heard.state;
    let due = if heard.due { "due" } else { "-" };
    writeln!(text, "{} {due}", heard.number)
}

// A key's line. Its state is `adopted` or `offered`.
fn key_line(text: &mut Text, state: &str, key: &ResolverKey) -> fmt::Result {
    let name = Hex(front(&key.name[..], key.length));
    let algorithm = match key.algorithm {
        Algorithm::Sha256 => "hmac-sha256",
        Algorithm::Sha384 => "hmac-sha384",
        Algorithm::Sha512 => "hmac-sha512",
    };
    write!(text, "key\t{state}\t{name}\t{algorithm}")?;
    writeln!(text, "\t{}\t{}", key.inception, key.expiration)
}

// The resolver's line: the open request and its ID, and the key whose turn it is to sign an adoption; then the keys' lines.
fn keys(s: &Resolver, text: &mut Text) -> fmt::Result {
    match s.awaited {
        None => write!(text, "resolver\t-\t-")?,
        Some(OpenRequest { id, asking }) => {
            let asking = match asking {
                Asking::Ordinary => "ordinary",
                Asking::Renewal => "renewal",
                Asking::Adoption => "adoption",
                Asking::Deletion => "deletion",
            };
            write!(text, "resolver\t{asking}\t{id}")?
        }
    }
    let turn = if s.offered_signs {
        "offered"
    } else {
        "adopted"
    };
    writeln!(text, "\t{turn}")?;
    match s.holding {
        Holding::Nothing => Ok(()),
        Holding::Adopted => key_line(text, "adopted", &s.adopted),
        Holding::AdoptedAndOffered => {
            key_line(text, "adopted", &s.adopted)?;
            key_line(text, "offered", &s.offered)
        }
    }
}

// ── The lines ───────────────────────────────────────────────────────────────────────────────────────────────────────

// Does a line to the resolver s and prints what it answers. What a writing call writes stands at the front of out.
pub fn resolver_line(
    s: &mut Resolver,
    call: ResolverCall,
    out: &mut [u8],
    text: &mut Text,
) -> fmt::Result {
    match call {
        ResolverCall::Hold {
            name,
            algorithm,
            inception,
            expiration,
        } => {
            *s = holder(
                Holding::Adopted,
                key(name, algorithm, inception, expiration),
            );
            writeln!(text, "0")
        }
        ResolverCall::Renewal {
            id,
            name,
            algorithm,
            inception,
            expiration,
            key,
            room,
        } => {
            let written = resolver_requests::write_renewal(
                *s,
                id,
                name,
                algorithm,
                inception,
                expiration,
                key,
                lent(out, room, MOST_OF_MESSAGE),
            );
            sent(s, written, out, text)
        }
        ResolverCall::Adoption { id, room } => {
            let written = resolver_requests::write_adoption(
                *s,
                id,
                lent(out, room, MOST_OF_MESSAGE),
            );
            sent(s, written, out, text)
        }
        ResolverCall::Deletion { id, room } => {
            let written = resolver_requests::write_deletion(
                *s,
                id,
                lent(out, room, MOST_OF_MESSAGE),
            );
            sent(s, written, out, text)
        }
        ResolverCall::Note { id } => {
            *s = resolver_requests::note(*s, id);
            writeln!(text, "0")
        }
        ResolverCall::Reply { good, message } => {
            heard(s, resolver_replies::read_reply(*s, good, message), text)
        }
        ResolverCall::Keys => keys(s, text),
    }
}
