// The octets under a TSIG's MAC, and its data (02, CR 3; RFC 8945, 4.2 and 4.3), into the lent buffer. A writer takes the place and answers the next one.
#![tactic(auto)]

ghost use Rattle.std.specs.Prelude.{◌≡◌, List, ◌++◌, ℕ, ◌+◌, ◌-◌, ◌≤◌, ◌<◌, ◌^◌, length};
ghost use Rattle.model.specs.Octets.{be16, be48, part};
ghost use Rattle.model.specs.Signing.{tsig_data, canonical, variables, request_digest};
ghost use Rattle.octets.specs.Wrote.{Wrote};
ghost use Rattle.digests.specs.Left.{number_of, refusal_of};
ghost use Rattle.digests.specs.Stamps.{stamp_of};

use contents::Unread;

// What a TSIG says besides its names, its MAC and its other data.
#[derive(Clone, Copy)]
pub struct TsigNumbers {
    pub signed: u64,
    pub fudge: u16,
    pub original_id: u16,
    pub error: u16,
}

// The refusals of the calls over these writers, each with its number.
#[derive(Clone, Copy)]
pub enum Refusal {
    Time,
    Size,
    Format,
    Room,
    Name,
    MacSize,
}

impl Refusal {
    pub fn number(self) -> u64
        ensures { result ≡ number_of self }
    {
        match self {
            Refusal::Time => 2,
            Refusal::Size => 4,
            Refusal::Format => 6,
            Refusal::Room => 8,
            Refusal::Name => 12,
            Refusal::MacSize => 16,
        }
    }
}

impl From<Unread> for Refusal {
    ghost from_gives = { λ u r. r ≡ refusal_of u };

    fn from(u: Unread) -> Refusal {
        match u {
            Unread::Size => Refusal::Size,
            Unread::Broken { place: _ } => Refusal::Format,
        }
    }
}

// A name in canonical form: A to Z in lower case.
fn canonical_into(buf: &mut [u8], at: usize, name: &[u8]) -> usize
    requires { at + length name.now ≤ length buf.old }
    ensures { (result ≡ at + length name.now) × Wrote (canonical name.now) at buf.old buf.new result }
{
    let end = octets::all_into(buf, at, name);
    buf[at..end].make_ascii_lowercase();
    end
}

// Time signed and fudge.
pub fn signed_into(buf: &mut [u8], at: usize, numbers: TsigNumbers) -> usize
    requires { (at + 8 ≤ length buf.old) × (numbers.signed < 2 ^ 48) }
    ensures { (result ≡ at + 8) × Wrote (be48 numbers.signed ++ be16 numbers.fudge) at buf.old buf.new result }
{
    let a = octets::u48_into(buf, at, numbers.signed as usize);
    octets::u16_into(buf, a, numbers.fudge as usize)
}

// Error and other data.
fn other_into(buf: &mut [u8], at: usize, numbers: TsigNumbers, other: &[u8]) -> usize
    requires { (at + 4 + length other.now ≤ length buf.old) × (length other.now < 65536) }
    ensures { (result ≡ at + 4 + length other.now)
        × Wrote (be16 numbers.error ++ (be16 (length other.now) ++ other.now)) at buf.old buf.new result }
{
    let a = octets::u16_into(buf, at, numbers.error as usize);
    let b = octets::u16_into(buf, a, other.len());
    octets::all_into(buf, b, other)
}

// The TSIG variables (RFC 8945, 4.3.3).
pub fn variables_into(
    buf: &mut [u8],
    at: usize,
    name: &[u8],
    algorithm: &[u8],
    numbers: TsigNumbers,
    other: &[u8],
) -> usize
    requires { (at + length name.now + length algorithm.now + 18 + length other.now ≤ length buf.old) × (numbers.signed < 2 ^ 48)
        × (length other.now < 65536) }
    ensures { (result ≡ at + length name.now + length algorithm.now + 18 + length other.now)
        × ((mac : List ℕ) → Wrote (variables name.now (stamp_of numbers algorithm.now mac other.now)) at buf.old buf.new result) }
{
    let a = canonical_into(buf, at, name);
    let b = octets::u16_into(buf, a, 255);
    let d = octets::u32_into(buf, b, 0);
    let e = canonical_into(buf, d, algorithm);
    let f = signed_into(buf, e, numbers);
    other_into(buf, f, numbers, other)
}

// The digest of a request, from `at` on: the message under the original ID, and the variables.
pub fn digest_into(
    buf: &mut [u8],
    at: usize,
    m: &[u8],
    name: &[u8],
    algorithm: &[u8],
    numbers: TsigNumbers,
    other: &[u8],
) -> usize
    requires { (at + length m.now + length name.now + length algorithm.now + 18 + length other.now ≤ length buf.old) × (12 ≤ length m.now)
        × (numbers.signed < 2 ^ 48) × (length other.now < 65536) }
    ensures { (mac : List ℕ) → Wrote (request_digest m.now name.now (stamp_of numbers algorithm.now mac other.now))
        at buf.old buf.new result }
{
    let a = octets::u16_into(buf, at, numbers.original_id as usize);
    let b = octets::all_into(buf, a, &m[2..]);
    variables_into(buf, b, name, algorithm, numbers, other)
}

// A TSIG's data (RFC 8945, 4.2).
pub fn data_into(
    buf: &mut [u8],
    at: usize,
    algorithm: &[u8],
    numbers: TsigNumbers,
    mac: &[u8],
    other: &[u8],
) -> usize
    requires { (at + length algorithm.now + 16 + length mac.now + length other.now ≤ length buf.old) × (numbers.signed < 2 ^ 48)
        × (length mac.now ≤ 64) × (length other.now < 65536) }
    ensures { Wrote (tsig_data (stamp_of numbers algorithm.now mac.now other.now)) at buf.old buf.new result }
{
    let a = octets::all_into(buf, at, algorithm);
    let b = signed_into(buf, a, numbers);
    let d = octets::u16_into(buf, b, mac.len());
    let e = octets::all_into(buf, d, mac);
    let f = octets::u16_into(buf, e, numbers.original_id as usize);
    other_into(buf, f, numbers, other)
}

// The message m up to `end`, with this count of additional records in its header.
pub fn counted_into(buf: &mut [u8], m: &[u8], count: usize, end: usize) -> usize
    requires { (12 ≤ end) × (end ≤ length m.now) × (end ≤ length buf.old) × (count < 65536) }
    ensures { (result ≡ end)
        × Wrote (part m.now 0 10 ++ (be16 count ++ part m.now 12 (end - 12))) 0 buf.old buf.new result }
{
    let a = octets::part_into(buf, 0, m, 0, 10);
    let b = octets::u16_into(buf, a, count);
    octets::part_into(buf, b, m, 12, end - 12)
}

// The message m up to `end`, from `at` on, under this ID and with this count of additional records in its header.
pub fn renumbered_into(
    buf: &mut [u8],
    at: usize,
    m: &[u8],
    id: usize,
    count: usize,
    end: usize,
) -> usize
    requires { (at + end ≤ length buf.old) × (12 ≤ end) × (end ≤ length m.now) × (id < 65536) × (count < 65536) }
    ensures { (result ≡ at + end)
        × Wrote (be16 id ++ (part m.now 2 8 ++ (be16 count ++ part m.now 12 (end - 12)))) at buf.old buf.new result }
{
    let a = octets::u16_into(buf, at, id);
    let b = octets::part_into(buf, a, m, 2, 8);
    let d = octets::u16_into(buf, b, count);
    octets::part_into(buf, d, m, 12, end - 12)
}

// What stands in front of a later message of a stream (RFC 8945, 5.3.1): the prior MAC, its length first, and the messages without a TSIG since then.
pub fn prior_into(buf: &mut [u8], prior: &[u8], before: &[u8]) -> usize
    requires { (2 + length prior.now + length before.now ≤ length buf.old) × (length prior.now ≤ 64) }
    ensures { (result ≡ 2 + length prior.now + length before.now)
        × Wrote (be16 (length prior.now) ++ (prior.now ++ before.now)) 0 buf.old buf.new result }
{
    let a = octets::u16_into(buf, 0, prior.len());
    let b = octets::all_into(buf, a, prior);
    octets::all_into(buf, b, before)
}
