// The resolver's writing calls (02, CR 1): the requests for renewal, adoption and deletion, and the note of an ordinary message. Every state and every value
// of every argument is accepted. The contracts are equations with the crate model's Resolver.
#![tactic(auto)]

ghost use Rattle.std.specs.Prelude.{◌≡◌, ◌≤◌, not, length, option_copied, Ok, Err};
ghost use Rattle.model.specs.declared.SignWith.TheVariants.{AdoptedKey};
ghost use Rattle.model.specs.declared.Asking.TheVariants.{Renewal, Adoption, Deletion};
ghost use Rattle.model.specs.Names.{wire_name};
ghost use Rattle.model.specs.Resolver.{name_of, usable, adopted_key, offered_key, opened as openedBy, noted, turn, root_or, written_renewal, written_adoption, written_deletion};
ghost use Rattle.resolver_requests.specs.Sent.{number_of, sending_by, Sent};

use model::{Algorithm, Asking, Holding, OpenRequest, Resolver, ResolverKey, Sending, SignWith};

// ── Refusals ────────────────────────────────────────────────────────────────────────────────────────────────────────

// Why nothing is written: no room for it, or no key for that request or no wire name.
#[derive(Clone, Copy)]
enum Refusal {
    Room,
    NoKey,
}

impl Refusal {
    fn number(self) -> u64
        ensures { result ≡ number_of self }
    {
        match self {
            Refusal::Room => 5,
            Refusal::NoKey => 6,
        }
    }
}

// A refusal: no key changes, and nothing is written.
#[tactic(auto, unfolding(model::specs::Resolver::unwritten))]
fn refused(s: Resolver, refusal: Refusal) -> Sending
    ensures { (signer : SignWith) → (after : Resolver) → result ≡ sending_by s signer after (Err refusal) }
{
    Sending {
        number: refusal.number(),
        length: 0,
        signer: SignWith::Nobody,
        state: s,
    }
}

// ── Its keys ────────────────────────────────────────────────────────────────────────────────────────────────────────

// A key's name: all of its array where `length` says more.
#[tactic(auto, unfolding(model::specs::Resolver::name_of))]
fn name_of(k: &ResolverKey) -> &[u8]
    ensures { (result.now ≡ name_of k.now) × (length result.now ≤ 255) }
{
    &k.name[..k.length.min(255)]
}

// The key, where it can be asked for: its name is a wire name.
#[tactic(auto, unfolding(model::specs::Resolver::usable))]
fn usable(k: &ResolverKey) -> Option<&ResolverKey>
    ensures { option_copied result ≡ usable k.now }
{
    if names::wire_name(name_of(k)) {
        Some(k)
    } else {
        None
    }
}

#[tactic(auto, unfolding(model::specs::Resolver::adopted_key))]
fn adopted_key(s: &Resolver) -> Option<&ResolverKey>
    ensures { option_copied result ≡ adopted_key s.now }
{
    match s.holding {
        Holding::Nothing => None,
        Holding::Adopted | Holding::AdoptedAndOffered => usable(&s.adopted),
    }
}

#[tactic(auto, unfolding(model::specs::Resolver::offered_key))]
fn offered_key(s: &Resolver) -> Option<&ResolverKey>
    ensures { option_copied result ≡ offered_key s.now }
{
    match s.holding {
        Holding::Nothing | Holding::Adopted => None,
        Holding::AdoptedAndOffered => usable(&s.offered),
    }
}

// ── Requests ────────────────────────────────────────────────────────────────────────────────────────────────────────

// The request is the open one.
#[tactic(auto, unfolding(model::specs::Resolver::opened))]
fn opened(s: Resolver, id: u16, asking: Asking, signs: bool) -> Resolver
    ensures { result ≡ openedBy s id asking signs }
{
    Resolver {
        awaited: Some(OpenRequest { id, asking }),
        offered_signs: signs,
        ..s
    }
}

// A request of this length was written. `after` is the state with the request open.
fn written(length: usize, signer: SignWith, after: Resolver) -> Sending
    ensures { (s : Resolver) → result ≡ sending_by s signer after (Ok length) }
{
    Sending {
        number: 0,
        length: length as u64,
        signer,
        state: after,
    }
}

// ── Renewal ─────────────────────────────────────────────────────────────────────────────────────────────────────────

// NAME, the root where it is left out.
fn root_or(name: &[u8]) -> &[u8]
    ensures { result.now ≡ root_or name.now }
{
    if name.len() == 0 { b"\x00" } else { name }
}

// NOKEY, ROOM, or the length of what is written. The state is lent, and is copied where the call ends: were this inlined, LLVM would copy it here too.
#[inline(never)]
fn renewal_into(
    s: &Resolver,
    id: u16,
    name: &[u8],
    algorithm: Algorithm,
    inception: u32,
    expiration: u32,
    key: &[u8],
    out: &mut [u8],
) -> Result<usize, Refusal>
    ensures { Sent (written_renewal s.now id name.now algorithm inception expiration key.now (length out.old))
        out.old out.new
        (sending_by s.now AdoptedKey (openedBy s.now id Renewal s.now.offered_signs) result) }
{
    let named = root_or(name);
    if !names::wire_name(named) {
        return Err(Refusal::NoKey);
    }
    if !tkey::is_key_record(key) {
        return Err(Refusal::NoKey);
    }
    let adopted = adopted_key(s).ok_or(Refusal::NoKey)?;
    requests::renewal(
        out,
        id,
        named,
        algorithm,
        inception,
        expiration,
        name_of(adopted),
        adopted.algorithm,
        key,
    )
    .ok_or(Refusal::Room)
}

// Write a renewal: NAME (the root where name is empty), the algorithm and the interval asked for, and the KEY record, which the caller lends; it is
// signed with the adopted key. Refused, in this order, with NOKEY (6), ROOM (5).
pub fn write_renewal(
    s: Resolver,
    id: u16,
    name: &[u8],
    algorithm: Algorithm,
    inception: u32,
    expiration: u32,
    key: &[u8],
    out: &mut [u8],
) -> Sending
    ensures { Sent (written_renewal s id name.now algorithm inception expiration key.now (length out.old))
        out.old out.new result }
{
    match renewal_into(&s, id, name, algorithm, inception, expiration, key, out) {
        Ok(length) => {
            let after = opened(s, id, Asking::Renewal, s.offered_signs);
            written(length, SignWith::AdoptedKey, after)
        }
        Err(refusal) => refused(s, refusal),
    }
}

// ── Adoption ────────────────────────────────────────────────────────────────────────────────────────────────────────

// The key whose turn it is to sign an adoption.
fn signer_of(signs: bool) -> SignWith
    ensures { result ≡ turn signs }
{
    if signs {
        SignWith::OfferedKey
    } else {
        SignWith::AdoptedKey
    }
}

// NOKEY, ROOM, or the length of what is written. Not inlined, as above.
#[inline(never)]
fn adoption_into(s: &Resolver, id: u16, out: &mut [u8]) -> Result<usize, Refusal>
    ensures { Sent (written_adoption s.now id (length out.old)) out.old out.new
        (sending_by s.now (turn s.now.offered_signs) (openedBy s.now id Adoption (not s.now.offered_signs)) result) }
{
    let adopted = adopted_key(s).ok_or(Refusal::NoKey)?;
    let offered = offered_key(s).ok_or(Refusal::NoKey)?;
    requests::adoption(
        out,
        id,
        name_of(offered),
        offered.algorithm,
        offered.inception,
        offered.expiration,
        name_of(adopted),
        adopted.algorithm,
    )
    .ok_or(Refusal::Room)
}

// Write an adoption of the offered key: the very first is signed with the adopted key, the next with the offered one, and so on in turn. Refused, in
// this order, with NOKEY (6), ROOM (5).
pub fn write_adoption(s: Resolver, id: u16, out: &mut [u8]) -> Sending
    ensures { Sent (written_adoption s id (length out.old)) out.old out.new result }
{
    match adoption_into(&s, id, out) {
        Ok(length) => {
            let after = opened(s, id, Asking::Adoption, !s.offered_signs);
            written(length, signer_of(s.offered_signs), after)
        }
        Err(refusal) => refused(s, refusal),
    }
}

// ── Deletion ────────────────────────────────────────────────────────────────────────────────────────────────────────

// NOKEY, ROOM, or the length of what is written. Not inlined, as above.
#[inline(never)]
fn deletion_into(s: &Resolver, id: u16, out: &mut [u8]) -> Result<usize, Refusal>
    ensures { Sent (written_deletion s.now id (length out.old)) out.old out.new
        (sending_by s.now AdoptedKey (openedBy s.now id Deletion s.now.offered_signs) result) }
{
    let adopted = adopted_key(s).ok_or(Refusal::NoKey)?;
    requests::deletion(out, id, name_of(adopted), adopted.algorithm).ok_or(Refusal::Room)
}

// Write a deletion of the adopted key, signed with it. Refused, in this order, with NOKEY (6), ROOM (5).
pub fn write_deletion(s: Resolver, id: u16, out: &mut [u8]) -> Sending
    ensures { Sent (written_deletion s id (length out.old)) out.old out.new result }
{
    match deletion_into(&s, id, out) {
        Ok(length) => {
            let after = opened(s, id, Asking::Deletion, s.offered_signs);
            written(length, SignWith::AdoptedKey, after)
        }
        Err(refusal) => refused(s, refusal),
    }
}

// ── The open request ────────────────────────────────────────────────────────────────────────────────────────────────

// An ordinary message's ID as the open request.
#[tactic(auto, unfolding(model::specs::Resolver::noted))]
pub fn note(s: Resolver, id: u16) -> Resolver
    ensures { result ≡ noted s id }
{
    opened(s, id, Asking::Ordinary, s.offered_signs)
}
