// What a TKEY request asks for (RFC 2930, 2; document 002, 2.3.4; 02, CR 10), for a caller who must make its offer before the message call: mode, algorithm, times,
// key data, and the data of the KEY record. All octets are accepted. The contract is an equation with the crate model's Inquiries; what lies in the message is
// told as a part of it.
#![tactic(auto)]

ghost use Rattle.std.specs.Prelude.{◌≡◌, List, ℕ};
ghost use Rattle.model.specs.Inquiries.{unasked_at, asks_with, asks_by, asks_of};
ghost use Rattle.tkey.specs.Fields.{tkey_from, Fits};
ghost use Rattle.tkey.specs.Key.{key_shown, KeyFits};
ghost use Rattle.contents.specs.Contents.{contents_shown, ContentsRead};
ghost use Rattle.asking.specs.Asking.{DataRead, Shows};
ghost use Rattle.asking.specs.declared.Unasked.TheVariants.{Unread as Refuses};

use contents::{Contents, Unread};
use model::Span;
use tkey::{OnlyKey, OnlyTkey, TkeyFields};

// What a message asks for: the TKEY's mode (0 where nothing is asked), algorithm (256, 384 or 512, or 0 for any other), times and key data; and the data of the only
// KEY record of the additional section, if there is one.
#[derive(Clone, Copy)]
pub struct Asked {
    pub mode: u64,
    pub algorithm: u64,
    pub inception: u64,
    pub expiration: u64,
    pub key: Span,
    pub second: Option<Span>,
}

// Why nothing is told: the octets cannot be read as a message (SIZE, FORMAT), or it is a response (NOTQUERY).
#[derive(Clone, Copy)]
pub enum Unasked {
    Unread(Unread),
    NotQuery,
}

impl From<Unread> for Unasked {
    ghost from_gives = { λ u e. e ≡ Refuses u };

    fn from(u: Unread) -> Unasked {
        Unasked::Unread(u)
    }
}

fn nothing_asked() -> Asked
    ensures { (m : List ℕ) → Shows m (unasked_at 0 0) (Ok result) }
{
    Asked {
        mode: 0,
        algorithm: 0,
        inception: 0,
        expiration: 0,
        key: Span { from: 0, size: 0 },
        second: None,
    }
}

// The KEY record's data, if there is one.
fn key_data(key: Option<OnlyKey>) -> Option<Span>
    ensures { (m : List ℕ) → KeyFits m key → DataRead m key result }
{
    match key {
        None => None,
        Some(OnlyKey { place: _, fields }) => Some(fields.content),
    }
}

// What a TKEY with these fields asks for, in a message with this only KEY.
fn asked_with(m: &[u8], t: TkeyFields, key: Option<OnlyKey>) -> Asked
    requires { Fits m.now t × KeyFits m.now key }
    ensures { (owner : List ℕ) → Shows m.now (asks_with (key_shown m.now key) (Some (tkey_from m.now owner t))) (Ok result) }
{
    let named = names::algorithm_named(records::part_of(m, t.algorithm));
    let algorithm = named.map_or(0, u64::from);
    let second = key_data(key);
    Asked {
        mode: t.mode as u64,
        algorithm,
        inception: t.inception as u64,
        expiration: t.expiration as u64,
        key: t.key,
        second,
    }
}

// What a message that says c asks for.
fn asked_by(m: &[u8], c: Contents) -> Asked
    requires { ContentsRead m.now c }
    ensures { Shows m.now (asks_by (contents_shown m.now c)) (Ok result) }
{
    let tkey = c.tkey;
    let key = c.key;
    if !c.request {
        return nothing_asked();
    }
    match tkey {
        None => nothing_asked(),
        Some(OnlyTkey { place: _, fields }) => asked_with(m, fields, key),
    }
}

// What the message m asks for, signed or not. Refused, in this order, with SIZE (4), FORMAT (6), NOTQUERY (7).
pub fn asks(m: &[u8]) -> Result<Asked, Unasked>
    ensures { Shows m.now (asks_of m.now) result }
{
    let c = contents::read(m)?;
    if c.response {
        return Err(Unasked::NotQuery);
    }
    Ok(asked_by(m, c))
}
