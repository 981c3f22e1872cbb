// The resolver's half of the exchange (02, CR 1), for C and Rust to link: numbers, lent arrays and lent slices alone. Each call takes every value of every
// argument and returns its number: 0 done, 1 LOST, 2 WRONGID, 3 UNSIGNED, 4 FORMAT, 5 ROOM, 6 NOKEY. The state lies in 12 words and 510 octets
// (resolver_state's specs/State.antt), and every content of them is one. A refusal changes no word and no octet of it.
#![tactic(auto)]

ghost use Rattle.std.specs.Prelude.{◌≡◌, [], ◌∷◌, ◌≤◌, length};
ghost use Rattle.model.specs.Resolver.{noted, written_renewal, written_adoption, written_deletion, read_reply};
ghost use Rattle.model.specs.Granted.{key_named, starting_with, held, numbered_renewal, granted_data};
ghost use Rattle.resolver_state.specs.State.{resolver_of};
ghost use Rattle.capi_resolver.specs.Lent.{HoldLent, signer_word, SentLent, due_word, heard_words, HeardLent, Kept};

use model::{Algorithm, Holding, Resolver, ResolverKey, SignWith, Span};

// ── A state to start from ───────────────────────────────────────────────────────────────────────────────────────────

fn key_named(name: &[u8], algorithm: Algorithm, inception: u32, expiration: u32) -> ResolverKey
    requires { length name.now ≤ 255 }
    ensures { result ≡ key_named name.now algorithm inception expiration }
{
    let mut all = [0u8; 255];
    let length = octets::all_into(&mut all[..], 0, name);
    ResolverKey {
        name: all,
        length,
        algorithm,
        inception,
        expiration,
    }
}

fn starting_with(k: ResolverKey) -> Resolver
    ensures { result ≡ starting_with k }
{
    Resolver {
        holding: Holding::Adopted,
        adopted: k,
        offered: k,
        awaited: None,
        offered_signs: false,
    }
}

// Hold this key as the adopted one, and nothing else, whatever state was there: no request is open, and the next adoption is signed with the adopted key.
// Refused with NOKEY (6): the name is no wire name, or the algorithm none of 256, 384 and 512.
#[unsafe(no_mangle)]
pub extern "C" fn luffcringle_resolver_hold(
    words: &mut [u64; 12],
    names: &mut [u8; 510],
    name: &[u8],
    algorithm: u64,
    inception: u32,
    expiration: u32,
) -> u64
    ensures { HoldLent (held (resolver_of words.old names.old) name.now algorithm inception expiration)
        words.old names.old words.new names.new result }
{
    if !names::wire_name(name) {
        return 6;
    }
    match Algorithm::try_from(algorithm) {
        Err(_) => 6,
        Ok(g) => {
            let k = key_named(name, g, inception, expiration);
            resolver_state::store(words, names, starting_with(k));
            0
        }
    }
}

// ── Requests ────────────────────────────────────────────────────────────────────────────────────────────────────────

fn signer_word(signer: SignWith) -> u64
    ensures { result ≡ signer_word signer }
{
    match signer {
        SignWith::Nobody => 0,
        SignWith::AdoptedKey => 1,
        SignWith::OfferedKey => 2,
    }
}

fn tell_sent(told: &mut [u64; 2], count: u64, signer: SignWith)
    ensures { told.new ≡ count ∷ signer_word signer ∷ [] }
{
    let word = signer_word(signer);
    *told = [count, word];
}

// Stores the state that a call ended with, unless it refused.
fn keep(words: &mut [u64; 12], names: &mut [u8; 510], number: u64, after: Resolver) -> u64
    ensures { Kept number after words.old names.old words.new names.new result }
{
    if number != 0 {
        return number;
    }
    resolver_state::store(words, names, after);
    number
}

// Write a renewal whose algorithm is known.
fn renewal_of(
    words: &mut [u64; 12],
    names: &mut [u8; 510],
    id: u16,
    name: &[u8],
    algorithm: Algorithm,
    inception: u32,
    expiration: u32,
    key: &[u8],
    out: &mut [u8],
    told: &mut [u64; 2],
) -> u64
    ensures { SentLent (written_renewal (resolver_of words.old names.old) id name.now algorithm inception expiration
        key.now (length out.old))
        words.old names.old words.new names.new told.new out.old out.new result }
{
    let s = resolver_state::load(words, names);
    let w = resolver_requests::write_renewal(
        s, id, name, algorithm, inception, expiration, key, out,
    );
    let signer = w.signer;
    tell_sent(told, w.length, signer);
    let after = w.state;
    keep(words, names, w.number, after)
}

// Write a renewal: NAME (the root where name is empty), the algorithm (256, 384 or 512) and the interval asked for, and the KEY record, which the caller
// lends. Tells how many octets it wrote and the key to sign them with: 0 nobody, 1 the adopted key, 2 the offered key. Refused, in this order, with NOKEY
// (6), ROOM (5).
#[unsafe(no_mangle)]
pub extern "C" fn luffcringle_resolver_renewal(
    words: &mut [u64; 12],
    names: &mut [u8; 510],
    id: u16,
    name: &[u8],
    algorithm: u64,
    inception: u32,
    expiration: u32,
    key: &[u8],
    out: &mut [u8],
    told: &mut [u64; 2],
) -> u64
    ensures { SentLent (numbered_renewal (resolver_of words.old names.old) id name.now algorithm inception expiration
        key.now (length out.old))
        words.old names.old words.new names.new told.new out.old out.new result }
{
    match Algorithm::try_from(algorithm) {
        Err(_) => {
            tell_sent(told, 0, SignWith::Nobody);
            6
        }
        Ok(g) => renewal_of(
            words, names, id, name, g, inception, expiration, key, out, told,
        ),
    }
}

// Write an adoption of the offered key. Tells as a renewal does: the very first is to be signed with the adopted key, the next with the offered one, and so
// on in turn. Refused, in this order, with NOKEY (6), ROOM (5).
#[unsafe(no_mangle)]
pub extern "C" fn luffcringle_resolver_adoption(
    words: &mut [u64; 12],
    names: &mut [u8; 510],
    id: u16,
    out: &mut [u8],
    told: &mut [u64; 2],
) -> u64
    ensures { SentLent (written_adoption (resolver_of words.old names.old) id (length out.old))
        words.old names.old words.new names.new told.new out.old out.new result }
{
    let s = resolver_state::load(words, names);
    let w = resolver_requests::write_adoption(s, id, out);
    let signer = w.signer;
    tell_sent(told, w.length, signer);
    let after = w.state;
    keep(words, names, w.number, after)
}

// Write a deletion of the adopted key, to be signed with it. Tells as a renewal does. Refused, in this order, with NOKEY (6), ROOM (5).
#[unsafe(no_mangle)]
pub extern "C" fn luffcringle_resolver_deletion(
    words: &mut [u64; 12],
    names: &mut [u8; 510],
    id: u16,
    out: &mut [u8],
    told: &mut [u64; 2],
) -> u64
    ensures { SentLent (written_deletion (resolver_of words.old names.old) id (length out.old))
        words.old names.old words.new names.new told.new out.old out.new result }
{
    let s = resolver_state::load(words, names);
    let w = resolver_requests::write_deletion(s, id, out);
    let signer = w.signer;
    tell_sent(told, w.length, signer);
    let after = w.state;
    keep(words, names, w.number, after)
}

// Note an ordinary message's ID as the open request.
#[unsafe(no_mangle)]
pub extern "C" fn luffcringle_resolver_note(words: &mut [u64; 12], names: &mut [u8; 510], id: u16)
    ensures { resolver_of words.new names.new ≡ noted (resolver_of words.old names.old) id }
{
    let s = resolver_state::load(words, names);
    let after = resolver_requests::note(s, id);
    resolver_state::store(words, names, after);
}

// ── Replies ─────────────────────────────────────────────────────────────────────────────────────────────────────────

fn due_word(due: bool) -> u64
    ensures { result ≡ due_word due }
{
    if due { 1 } else { 0 }
}

fn tell_heard(told: &mut [u64; 4], due: bool, found: Option<Span>)
    ensures { told.new ≡ heard_words due found }
{
    let word = due_word(due);
    match found {
        None => {
            *told = [word, 0, 0, 0];
        }
        Some(p) => {
            *told = [word, 1, p.from as u64, p.size as u64];
        }
    }
}

// Read a reply to the open request; `good` is the caller's verdict on its MAC and its time. Tells 1 where renewal is due (PartialRevoke), else 0; 1 where a
// renewal was granted, else 0; and where in the message the key data of the key stands that is offered now, and how many octets it has (else 0 and 0).
// Refused, in this order, with FORMAT (4), LOST (1), WRONGID (2), UNSIGNED (3).
#[unsafe(no_mangle)]
pub extern "C" fn luffcringle_resolver_reply(
    words: &mut [u64; 12],
    names: &mut [u8; 510],
    good: bool,
    message: &[u8],
    told: &mut [u64; 4],
) -> u64
    ensures { HeardLent (read_reply (resolver_of words.old names.old) good message.now) message.now
        (granted_data (resolver_of words.old names.old) good message.now)
        words.old names.old words.new names.new told.new result }
{
    let s = resolver_state::load(words, names);
    let found = granted::key_data(s, good, message);
    let h = resolver_replies::read_reply(s, good, message);
    tell_heard(told, h.due, found);
    let after = h.state;
    keep(words, names, h.number, after)
}
