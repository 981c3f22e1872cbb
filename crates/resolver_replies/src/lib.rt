// The resolver's reading call (02, CR 1): what a reply to the open request moves. Every state and every value of every argument is accepted. The contracts
// are equations with the crate model's Resolver.
#![tactic(auto)]

ghost use Rattle.std.specs.Prelude.{ℕ, ◌≡◌, ◌≤◌, List, length};
ghost use Rattle.model.specs.Names.{algorithm_named};
ghost use Rattle.model.specs.Resolver.{closed, unheard, offered_by, renewed_in, adopted_by, keyless, moved, is_mode, moved_by, read_reply};
ghost use Rattle.records.specs.Record.{Within, cut};
ghost use Rattle.answers.specs.Answer.{answer_from, shown, FoundFits};
ghost use Rattle.resolver_replies.specs.Hearing.{number_of, key_from, offering, adopting, AnswerMoves, Accepts, Hears, HearsSigned, HearsAwaited, Passes, Checked};

use answers::{AnswerFields, AnswerFound};
use contents::Contents;
use model::{Algorithm, Asking, Heard, Holding, Resolver, ResolverKey};
use tsig::Signer;

// ── Refusals ────────────────────────────────────────────────────────────────────────────────────────────────────────

// Why a reply is not heard.
#[derive(Clone, Copy)]
enum Refusal {
    Lost,
    WrongId,
    Unsigned,
    Format,
}

impl Refusal {
    fn number(self) -> u64
        ensures { result ≡ number_of self }
    {
        match self {
            Refusal::Lost => 1,
            Refusal::WrongId => 2,
            Refusal::Unsigned => 3,
            Refusal::Format => 4,
        }
    }
}

// ── What a reply moves ──────────────────────────────────────────────────────────────────────────────────────────────

#[tactic(auto, unfolding(model::specs::Resolver::closed))]
fn close_request(s: Resolver) -> Resolver
    ensures { result ≡ closed s }
{
    Resolver { awaited: None, ..s }
}

// The key of this name.
fn key_from(owner: &[u8], algorithm: Algorithm, inception: u32, expiration: u32) -> ResolverKey
    requires { length owner.now ≤ 255 }
    ensures { result ≡ key_from owner.now algorithm inception expiration }
{
    let mut name = [0u8; 255];
    let length = octets::all_into(&mut name[..], 0, owner);
    ResolverKey {
        name,
        length,
        algorithm,
        inception,
        expiration,
    }
}

// Holds a key as offered: its first adoption will be signed with the old one.
fn offer(s: Resolver, offered: ResolverKey) -> Resolver
    ensures { result ≡ offering s offered }
{
    Resolver {
        holding: Holding::AdoptedAndOffered,
        offered,
        offered_signs: false,
        ..s
    }
}

// The key that a TKEY grants: its name is `owner`, its other fields are those of the message m.
fn offer_granted(s: Resolver, m: &[u8], owner: &[u8], fields: AnswerFields) -> Resolver
    requires { (length owner.now ≤ 255) × Within m.now fields.algorithm }
    ensures { result ≡ offered_by s (answer_from m.now owner.now fields)
        (algorithm_named (cut m.now fields.algorithm)) }
{
    match names::algorithm_named(records::part_of(m, fields.algorithm)) {
        Some(algorithm) => {
            let key = key_from(owner, algorithm, fields.inception, fields.expiration);
            offer(s, key)
        }
        None => s,
    }
}

// A granted renewal moves nothing where there is no key to renew.
fn renew(s: Resolver, m: &[u8], owner: &[u8], fields: AnswerFields) -> Resolver
    requires { (length owner.now ≤ 255) × Within m.now fields.algorithm }
    ensures { result ≡ renewed_in s.holding s (answer_from m.now owner.now fields) }
{
    match s.holding {
        Holding::Nothing => s,
        Holding::Adopted | Holding::AdoptedAndOffered => offer_granted(s, m, owner, fields),
    }
}

// The offered key in the old one's place.
fn take_offered(s: Resolver) -> Resolver
    ensures { result ≡ adopting s }
{
    Resolver {
        holding: Holding::Adopted,
        adopted: s.offered,
        ..s
    }
}

// Where no key is offered, none is adopted.
fn adopt(s: Resolver) -> Resolver
    ensures { result ≡ adopted_by s.holding s }
{
    match s.holding {
        Holding::Nothing | Holding::Adopted => s,
        Holding::AdoptedAndOffered => take_offered(s),
    }
}

// Deleting the adopted key drops the offered one too.
#[tactic(auto, unfolding(model::specs::Resolver::keyless))]
fn drop_keys(s: Resolver) -> Resolver
    ensures { result ≡ keyless s }
{
    Resolver {
        holding: Holding::Nothing,
        ..s
    }
}

// What the TKEY with these fields moves, of the mode that was asked for.
fn moved_as(asking: Asking, s: Resolver, m: &[u8], owner: &[u8], fields: AnswerFields) -> Resolver
    requires { (length owner.now ≤ 255) × Within m.now fields.algorithm }
    ensures { result ≡ moved asking s (answer_from m.now owner.now fields) }
{
    match asking {
        Asking::Ordinary => s,
        Asking::Renewal => renew(s, m, owner, fields),
        Asking::Adoption => adopt(s),
        Asking::Deletion => drop_keys(s),
    }
}

// Whether a TKEY's mode is the one that was asked for.
fn is_mode(asking: Asking, mode: usize) -> bool
    ensures { result ≡ is_mode asking mode }
{
    match asking {
        Asking::Ordinary => false,
        Asking::Renewal => mode == 4098,
        Asking::Adoption => mode == 4100,
        Asking::Deletion => mode == 5,
    }
}

// What the TKEY of the answer section moves.
fn moved_by(
    asking: Asking,
    s: Resolver,
    m: &[u8],
    owner: &[u8; 255],
    found: Option<AnswerFound>,
) -> Resolver
    requires { FoundFits m.now found }
    ensures { result ≡ moved_by asking s (shown m.now owner.now found) }
{
    match found {
        None => s,
        Some(AnswerFound { name, fields }) => {
            if !is_mode(asking, fields.mode) {
                return s;
            }
            if fields.error != 0 {
                return s;
            }
            moved_as(asking, s, m, &owner[..name], fields)
        }
    }
}

// What the message m moves, whose questions end at `end`.
fn moved_in(s: Resolver, asking: Asking, m: &[u8], end: usize) -> Resolver
    requires { 12 ≤ length m.now }
    ensures { AnswerMoves s asking m.now end result }
{
    let kept = messages::answer_tkey(m, end);
    let mut owner = [0u8; 255];
    let found = answers::answer_by(m, &mut owner, kept);
    moved_by(asking, s, m, &owner, found)
}

// ── Reading a reply ─────────────────────────────────────────────────────────────────────────────────────────────────

// A message past the checks: what it is a reply to, where its questions end, whether it is a response, and the error of its TSIG.
#[derive(Clone, Copy)]
struct Passed {
    asking: Asking,
    end: usize,
    response: bool,
    error: usize,
}

// Closes the request. Only a response with no error in its header and in its TSIG moves more.
fn accept(s: Resolver, m: &[u8], passed: &Passed) -> Resolver
    requires { 12 ≤ length m.now }
    ensures { Accepts s passed.now.asking m.now passed.now.end passed.now.response passed.now.error result }
{
    let after = close_request(s);
    if !passed.response {
        return after;
    }
    if octets::wide(m[3]) % 16 != 0 {
        return after;
    }
    if passed.error != 0 {
        return after;
    }
    moved_in(after, passed.asking, m, passed.end)
}

// A message past the checks; in a reply PartialRevoke says that renewal is due.
fn hear(s: Resolver, m: &[u8], passed: &Passed) -> Heard
    requires { 12 ≤ length m.now }
    ensures { Hears s passed.now.asking m.now passed.now.end passed.now.response passed.now.error result }
{
    let state = accept(s, m, passed);
    Heard {
        number: 0,
        due: passed.response & (passed.error == 3841),
        state,
    }
}

// UNSIGNED, by how the message is signed, and by the verdict.
fn check_signed(asking: Asking, good: bool, c: &Contents) -> Result<Passed, Refusal>
    ensures { (s : Resolver) → (m : List ℕ) → Passes s m
        (HearsSigned s asking good m c.now.end c.now.response c.now.signer) result }
{
    match c.signer {
        Signer::Nobody | Signer::Ill => Err(Refusal::Unsigned),
        Signer::Key { place: _, fields } => {
            if !good {
                return Err(Refusal::Unsigned);
            }
            Ok(Passed {
                asking,
                end: c.end,
                response: c.response,
                error: fields.error,
            })
        }
    }
}

// LOST, WRONGID, then as above.
fn check_awaited(s: &Resolver, good: bool, m: &[u8], c: &Contents) -> Result<Passed, Refusal>
    requires { 12 ≤ length m.now }
    ensures { Passes s.now m.now
        (HearsAwaited s.now good m.now c.now.end c.now.response c.now.signer) result }
{
    let Some(request) = s.awaited else {
        return Err(Refusal::Lost);
    };
    let answered = records::id(m) as u16;
    if answered != request.id {
        return Err(Refusal::WrongId);
    }
    check_signed(request.asking, good, c)
}

// FORMAT, then as above. The state is lent: it is copied once, where the call ends.
fn check_message(s: &Resolver, good: bool, m: &[u8]) -> Result<Passed, Refusal>
    ensures { Checked s.now good m.now result }
{
    match contents::read(m) {
        Err(_) => Err(Refusal::Format),
        Ok(c) => check_awaited(s, good, m, &c),
    }
}

// Reads a reply: FORMAT, LOST, WRONGID, UNSIGNED, then what it moves; a refusal moves nothing. `good` is the caller's verdict on its MAC and its time.
pub fn read_reply(s: Resolver, good: bool, m: &[u8]) -> Heard
    ensures { result ≡ read_reply s good m.now }
{
    match check_message(&s, good, m) {
        Ok(passed) => hear(s, m, &passed),
        Err(refusal) => Heard {
            number: refusal.number(),
            due: false,
            state: s,
        },
    }
}
