// The resolver's state where it lies: in 12 words and 510 octets that the caller lends (specs/State.antt). Every content of them is a state.
#![tactic(auto)]

ghost use Rattle.std.specs.Prelude.{◌≡◌, cond, ◌+◌, ◌%◌, ◌≤◌, ◌<◌};
ghost use Rattle.resolver_state.specs.State.{key_in, holding_by, request_by, resolver_of, holding_word, asking_word, request_word, id_word, WordsStored, NamesStored, Stored};

use model::{Algorithm, Asking, Holding, OpenRequest, Resolver, ResolverKey};

// ── Reading ─────────────────────────────────────────────────────────────────────────────────────────────────────────

// The key in the four words from the word i on.
fn key_in(words: &[u64; 12], i: usize, names: &[u8; 510], at: usize) -> ResolverKey
    requires { (i + 4 ≤ 12) × (at + 255 ≤ 510) }
    ensures { result ≡ key_in words.now i names.now at }
{
    let mut name = [0u8; 255];
    octets::part_into(&mut name[..], 0, &names[..], at, 255);
    let algorithm = Algorithm::try_from(words[i + 1]).unwrap_or(Algorithm::Sha512);
    ResolverKey {
        name,
        length: words[i] as usize,
        algorithm,
        inception: (words[i + 2] % 4294967296) as u32,
        expiration: (words[i + 3] % 4294967296) as u32,
    }
}

fn holding_by(tag: u64, adopted: bool, offered: bool) -> Holding
    ensures { result ≡ holding_by tag adopted offered }
{
    if !adopted {
        return Holding::Nothing;
    }
    match tag {
        1 => Holding::Adopted,
        2 => {
            if offered {
                Holding::AdoptedAndOffered
            } else {
                Holding::Adopted
            }
        }
        _ => Holding::Nothing,
    }
}

fn sent(id: u64, asking: Asking) -> Option<OpenRequest>
    ensures { result ≡ Some (record { id = id % 65536; asking = asking }) }
{
    Some(OpenRequest {
        id: (id % 65536) as u16,
        asking,
    })
}

fn request_by(tag: u64, id: u64) -> Option<OpenRequest>
    ensures { result ≡ request_by tag id }
{
    match tag {
        1 => sent(id, Asking::Ordinary),
        2 => sent(id, Asking::Renewal),
        3 => sent(id, Asking::Adoption),
        4 => sent(id, Asking::Deletion),
        _ => None,
    }
}

// The state that lies there.
pub fn load(words: &[u64; 12], names: &[u8; 510]) -> Resolver
    ensures { result ≡ resolver_of words.now names.now }
{
    let adopted_known = Algorithm::try_from(words[2]).is_ok();
    let offered_known = Algorithm::try_from(words[6]).is_ok();
    let holding = holding_by(words[0], adopted_known, offered_known);
    let adopted = key_in(words, 1, names, 0);
    let offered = key_in(words, 5, names, 255);
    let awaited = request_by(words[9], words[10]);
    Resolver {
        holding,
        adopted,
        offered,
        awaited,
        offered_signs: words[11] == 1,
    }
}

// ── Writing ─────────────────────────────────────────────────────────────────────────────────────────────────────────

fn holding_word(holding: Holding) -> u64
    ensures { result ≡ holding_word holding }
{
    match holding {
        Holding::Nothing => 0,
        Holding::Adopted => 1,
        Holding::AdoptedAndOffered => 2,
    }
}

fn asking_word(asking: Asking) -> u64
    ensures { result ≡ asking_word asking }
{
    match asking {
        Asking::Ordinary => 1,
        Asking::Renewal => 2,
        Asking::Adoption => 3,
        Asking::Deletion => 4,
    }
}

fn request_word(awaited: Option<OpenRequest>) -> u64
    ensures { result ≡ request_word awaited }
{
    match awaited {
        None => 0,
        Some(OpenRequest { id: _, asking }) => asking_word(asking),
    }
}

fn id_word(awaited: Option<OpenRequest>) -> u64
    ensures { (result ≡ id_word awaited) × (result < 65536) }
{
    match awaited {
        None => 0,
        Some(OpenRequest { id, asking: _ }) => id as u64,
    }
}

fn signs_word(signs: bool) -> u64
    ensures { result ≡ cond signs 1 0 }
{
    if signs { 1 } else { 0 }
}

fn store_words(words: &mut [u64; 12], s: Resolver)
    ensures { WordsStored s words.new }
{
    let holding = s.holding;
    let a = s.adopted;
    let g = a.algorithm;
    let o = s.offered;
    let h = o.algorithm;
    let awaited = s.awaited;
    let tag = holding_word(holding);
    let first = u64::from(g);
    let second = u64::from(h);
    let asking = request_word(awaited);
    let id = id_word(awaited);
    let signs = signs_word(s.offered_signs);
    *words = [
        tag,
        a.length as u64,
        first,
        a.inception as u64,
        a.expiration as u64,
        o.length as u64,
        second,
        o.inception as u64,
        o.expiration as u64,
        asking,
        id,
        signs,
    ];
}

fn store_names(names: &mut [u8; 510], s: Resolver)
    ensures { NamesStored s names.new }
{
    let a = s.adopted;
    let o = s.offered;
    let next = octets::all_into(&mut names[..], 0, &a.name[..]);
    octets::all_into(&mut names[..], next, &o.name[..]);
}

// Another state there.
pub fn store(words: &mut [u64; 12], names: &mut [u8; 510], s: Resolver)
    ensures { Stored s words.new names.new }
{
    store_words(words, s);
    store_names(names, s);
}
