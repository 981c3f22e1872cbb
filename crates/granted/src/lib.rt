// The key data that a granted renewal brings (02, CR 1): where it stands in the reply. The message is read as resolver_replies reads it, in the same order.
#![tactic(auto)]

ghost use Rattle.std.specs.Prelude.{◌≡◌, ◌≤◌, length};
ghost use Rattle.model.specs.Granted.{granted_data};
ghost use Rattle.records.specs.Record.{Within};
ghost use Rattle.granted.specs.Brought.{DataRead, asks_renewal, renews as renewsBy, ContentRead, PlaceRead, KeptRead, AnswerRead, AcceptedRead, SignedRead, AwaitedRead};

use messages::Kept;
use model::{Asking, Holding, OpenRequest, Resolver, Span};
use tkey::Layout;
use tsig::Signer;

// ── The TKEY ────────────────────────────────────────────────────────────────────────────────────────────────────────

// The key data of a TKEY whose data is the part `content` of the message m, if it grants a renewal.
fn data_in(m: &[u8], content: Span) -> Option<Span>
    requires { Within m.now content }
    ensures { ContentRead m.now content result }
{
    let start = content.from;
    let d = records::part_of(m, content);
    let Layout {
        next,
        count,
        size: _,
    } = tkey::layout_of(d)?;
    if octets::u16_at(d, next + 8) != 4098 {
        return None;
    }
    if octets::u16_at(d, next + 10) != 0 {
        return None;
    }
    let name = Span {
        from: start,
        size: next,
    };
    names::algorithm_named(records::part_of(m, name))?;
    Some(Span {
        from: start + next + 14,
        size: count,
    })
}

fn data_at(m: &[u8], place: usize) -> Option<Span>
    ensures { PlaceRead m.now place result }
{
    let Ok(found) = records::skip_record(m, place) else {
        return None;
    };
    data_in(m, found.content)
}

fn data_kept(m: &[u8], kept: Kept) -> Option<Span>
    ensures { KeptRead m.now kept result }
{
    match kept {
        Kept::Never => None,
        Kept::Once { section: _, place } => data_at(m, place),
        Kept::More => None,
    }
}

// By the only TKEY of the answer section of the message m, whose questions end at `end`.
fn data_answered(m: &[u8], end: usize) -> Option<Span>
    requires { 12 ≤ length m.now }
    ensures { AnswerRead m.now end result }
{
    data_kept(m, messages::answer_tkey(m, end))
}

// ── The checks ──────────────────────────────────────────────────────────────────────────────────────────────────────

fn asks_renewal(asking: Asking) -> bool
    ensures { result ≡ asks_renewal asking }
{
    match asking {
        Asking::Ordinary => false,
        Asking::Renewal => true,
        Asking::Adoption => false,
        Asking::Deletion => false,
    }
}

// A renewal is awaited, and there is a key to renew.
fn renews(holding: Holding, asking: Asking) -> bool
    ensures { result ≡ renewsBy holding asking }
{
    match holding {
        Holding::Nothing => false,
        Holding::Adopted => asks_renewal(asking),
        Holding::AdoptedAndOffered => asks_renewal(asking),
    }
}

// A response with no error in its header and in its TSIG, which is `error`.
fn data_accepted(renewing: bool, m: &[u8], end: usize, response: bool, error: usize) -> Option<Span>
    requires { 12 ≤ length m.now }
    ensures { AcceptedRead renewing m.now end response error result }
{
    if !renewing {
        return None;
    }
    if !response {
        return None;
    }
    if octets::wide(m[3]) % 16 != 0 {
        return None;
    }
    if error != 0 {
        return None;
    }
    data_answered(m, end)
}

// UNSIGNED, then as above.
fn data_signed(
    renewing: bool,
    good: bool,
    m: &[u8],
    end: usize,
    response: bool,
    signer: Signer,
) -> Option<Span>
    requires { 12 ≤ length m.now }
    ensures { SignedRead renewing good m.now end response signer result }
{
    match signer {
        Signer::Nobody => None,
        Signer::Ill => None,
        Signer::Key { place: _, fields } => {
            if !good {
                return None;
            }
            data_accepted(renewing, m, end, response, fields.error)
        }
    }
}

// LOST, WRONGID, then as above.
fn data_awaited(
    holding: Holding,
    awaited: Option<OpenRequest>,
    good: bool,
    m: &[u8],
    end: usize,
    response: bool,
    signer: Signer,
) -> Option<Span>
    requires { 12 ≤ length m.now }
    ensures { AwaitedRead holding awaited good m.now end response signer result }
{
    match awaited {
        None => None,
        Some(OpenRequest { id, asking }) => {
            let answered = records::id(m) as u16;
            if answered != id {
                return None;
            }
            let renewing = renews(holding, asking);
            data_signed(renewing, good, m, end, response, signer)
        }
    }
}

// Where the key data stands that the reply m brings to the resolver s; `good` is the caller's verdict on its MAC and its time.
pub fn key_data(s: Resolver, good: bool, m: &[u8]) -> Option<Span>
    ensures { DataRead (granted_data s good m.now) m.now result }
{
    let Ok(c) = contents::read(m) else {
        return None;
    };
    let holding = s.holding;
    let awaited = s.awaited;
    let signer = c.signer;
    data_awaited(holding, awaited, good, m, c.end, c.response, signer)
}
