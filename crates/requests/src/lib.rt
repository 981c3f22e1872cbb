// The resolver's requests (02, CR 1; 002, 2.3 to 2.5): their octets, into the lent buffer. A writer takes the place and answers the next one.
#![tactic(auto)]

ghost use Rattle.std.specs.Prelude.{◌≡◌, ◌+◌, ◌≤◌, ◌<◌, length};
ghost use Rattle.model.specs.Names.{algorithm_name};
ghost use Rattle.model.specs.Resolver.{old_key, renewal_octets, adoption_octets, deletion_octets};
ghost use Rattle.octets.specs.Wrote.{Wrote};
ghost use Rattle.replies.specs.Parts.{Replied};
ghost use Rattle.requests.specs.Pieces.{header_octets, question_octets, asked_octets, request_front};

use model::Algorithm;

// The algorithm's name.
fn algorithm_into(buf: &mut [u8], at: usize, g: Algorithm) -> usize
    requires { at + 13 ≤ length buf.old }
    ensures { (result ≡ at + 13) × Wrote (algorithm_name g) at buf.old buf.new result }
{
    match g {
        Algorithm::Sha256 => octets::all_into(buf, at, b"\x0bhmac-sha256\x00"),
        Algorithm::Sha384 => octets::all_into(buf, at, b"\x0bhmac-sha384\x00"),
        Algorithm::Sha512 => octets::all_into(buf, at, b"\x0bhmac-sha512\x00"),
    }
}

// The header: opcode 0, one question, and this many additional records.
fn header(buf: &mut [u8], id: u16, additionals: usize) -> usize
    requires { (12 ≤ length buf.old) × (additionals < 65536) }
    ensures { (result ≡ 12) × Wrote (header_octets id additionals) 0 buf.old buf.new result }
{
    let a = octets::u16_into(buf, 0, id as usize);
    let b = octets::u16_into(buf, a, 0);
    let d = octets::u16_into(buf, b, 1);
    let e = octets::u16_into(buf, d, 0);
    let f = octets::u16_into(buf, e, 0);
    octets::u16_into(buf, f, additionals)
}

// The question: type 249 (TKEY), class 255 (any).
fn question(buf: &mut [u8], at: usize, name: &[u8]) -> usize
    requires { at + length name.now + 4 ≤ length buf.old }
    ensures { (result ≡ at + length name.now + 4) × Wrote (question_octets name.now) at buf.old buf.new result }
{
    let a = octets::all_into(buf, at, name);
    let b = octets::u16_into(buf, a, 249);
    octets::u16_into(buf, b, 255)
}

// A TKEY's data before its other data: error 0, and no key data.
fn asked(
    buf: &mut [u8],
    at: usize,
    g: Algorithm,
    inception: u32,
    expiration: u32,
    mode: usize,
) -> usize
    requires { (at + 27 ≤ length buf.old) × (mode < 65536) }
    ensures { (result ≡ at + 27) × Wrote (asked_octets g inception expiration mode) at buf.old buf.new result }
{
    let a = algorithm_into(buf, at, g);
    let b = octets::u32_into(buf, a, inception as usize);
    let d = octets::u32_into(buf, b, expiration as usize);
    let e = octets::u16_into(buf, d, mode);
    let f = octets::u16_into(buf, e, 0);
    octets::u16_into(buf, f, 0)
}

// A request before the other data of its TKEY, which has `size` octets: 55 octets, and the name in the question and in the TKEY record.
fn request_front(
    buf: &mut [u8],
    id: u16,
    additionals: usize,
    name: &[u8],
    g: Algorithm,
    inception: u32,
    expiration: u32,
    mode: usize,
    size: usize,
) -> usize
    requires { (length name.now + length name.now + 55 ≤ length buf.old) × (additionals < 65536) × (mode < 65536) × (size ≤ 268) }
    ensures { (result ≡ length name.now + length name.now + 55)
        × Wrote (request_front id additionals name.now g inception expiration mode size) 0 buf.old buf.new result }
{
    let a = header(buf, id, additionals);
    let b = question(buf, a, name);
    let d = replies::record_front(buf, b, name, 249, 255, 0, 29 + size);
    let e = asked(buf, d, g, inception, expiration, mode);
    octets::u16_into(buf, e, size)
}

// The old key, in other data (002, 2.3.4).
fn old_key(buf: &mut [u8], at: usize, old: &[u8], g: Algorithm) -> usize
    requires { at + length old.now + 13 ≤ length buf.old }
    ensures { (result ≡ at + length old.now + 13) × Wrote (old_key old.now g) at buf.old buf.new result }
{
    let a = octets::all_into(buf, at, old);
    algorithm_into(buf, a, g)
}

// A renewal (mode 4098): key is the KEY record, whose length is tested before it is added. None where there is no room.
pub fn renewal(
    buf: &mut [u8],
    id: u16,
    name: &[u8],
    g: Algorithm,
    inception: u32,
    expiration: u32,
    old: &[u8],
    old_algorithm: Algorithm,
    key: &[u8],
) -> Option<usize>
    requires { (length name.now ≤ 255) × (length old.now ≤ 255) }
    ensures { Replied (renewal_octets id name.now g inception expiration old.now old_algorithm key.now)
        buf.old buf.new result }
{
    if 65535 < key.len() {
        return None;
    }
    let n = name.len() + name.len() + 68 + old.len() + key.len();
    if 65535 < n {
        return None;
    }
    if buf.len() < n {
        return None;
    }
    let a = request_front(
        buf,
        id,
        2,
        name,
        g,
        inception,
        expiration,
        4098,
        old.len() + 13,
    );
    let b = old_key(buf, a, old, old_algorithm);
    Some(octets::all_into(buf, b, key))
}

// An adoption (mode 4100). None where there is no room.
pub fn adoption(
    buf: &mut [u8],
    id: u16,
    name: &[u8],
    g: Algorithm,
    inception: u32,
    expiration: u32,
    old: &[u8],
    old_algorithm: Algorithm,
) -> Option<usize>
    requires { (length name.now ≤ 255) × (length old.now ≤ 255) }
    ensures { Replied (adoption_octets id name.now g inception expiration old.now old_algorithm)
        buf.old buf.new result }
{
    if buf.len() < name.len() + name.len() + 68 + old.len() {
        return None;
    }
    let a = request_front(
        buf,
        id,
        1,
        name,
        g,
        inception,
        expiration,
        4100,
        old.len() + 13,
    );
    Some(old_key(buf, a, old, old_algorithm))
}

// A deletion (mode 5): no times, and no other data. None where there is no room.
pub fn deletion(buf: &mut [u8], id: u16, name: &[u8], g: Algorithm) -> Option<usize>
    requires { length name.now ≤ 255 }
    ensures { Replied (deletion_octets id name.now g) buf.old buf.new result }
{
    if buf.len() < name.len() + name.len() + 55 {
        return None;
    }
    Some(request_front(buf, id, 1, name, g, 0, 0, 5, 0))
}
