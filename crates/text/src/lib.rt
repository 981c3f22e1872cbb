// Numbers, octets and algorithms as text in a lent buffer, by positions: each writer takes the place and answers the next one.
#![tactic(auto)]

ghost use Rattle.std.specs.Prelude.{◌≡◌, [], ◌∷◌, ◌+◌, ◌*◌, ◌/◌, ◌%◌, ◌≤◌, ◌<◌, length};
ghost use Rattle.model.specs.Listing.{algorithm_word};
ghost use Rattle.model.specs.Text.{numeral, hex_digit, hex_of};
ghost use Rattle.octets.specs.Wrote.{Wrote};

use model::Algorithm;

// A number in decimal. Below 2^64 it has at most 20 digits.
pub fn number_into(buf: &mut [u8], at: usize, n: u64) -> usize
    requires { at + 20 ≤ length buf.old }
    ensures { (result ≤ at + 20) × Wrote (numeral n) at buf.old buf.new result }
{
    if n == 0 {
        return octets::u8_into(buf, at, b'0');
    }
    names::decimal_into(buf, at, n)
}

fn hex_digit(n: u8) -> u8
    requires { n < 16 }
    ensures { result ≡ hex_digit n }
{
    if n < 10 { b'0' + n } else { b'a' - 10 + n }
}

// One octet in hexadecimal.
fn octet_into(buf: &mut [u8], at: usize, x: u8) -> usize
    requires { at + 2 ≤ length buf.old }
    ensures { (result ≡ at + 2) × Wrote (hex_of (x ∷ [])) at buf.old buf.new result }
{
    let next = octets::u8_into(buf, at, hex_digit(x / 16));
    octets::u8_into(buf, next, hex_digit(x % 16))
}

// Octets in lower-case hexadecimal.
pub fn hex_into(buf: &mut [u8], at: usize, s: &[u8]) -> usize
    requires { at + 2 * length s.now ≤ length buf.old }
    ensures { (result ≡ at + 2 * length s.now) × Wrote (hex_of s.now) at buf.old buf.new result }
{
    let mut next = at;
    for x in s {
        next = octet_into(buf, next, *x);
    }
    next
}

// A number as a further field of a line: its separator stands before it.
pub fn number_field(buf: &mut [u8], at: usize, separator: u8, n: u64) -> usize
    requires { at + 21 ≤ length buf.old }
    ensures { (result ≤ at + 21) × Wrote (separator ∷ numeral n) at buf.old buf.new result }
{
    let next = octets::u8_into(buf, at, separator);
    number_into(buf, next, n)
}

// A tab and the algorithm's word.
pub fn algorithm_field(buf: &mut [u8], at: usize, g: Algorithm) -> usize
    requires { at + 12 ≤ length buf.old }
    ensures { (result ≡ at + 12) × Wrote (9 ∷ algorithm_word g) at buf.old buf.new result }
{
    match g {
        Algorithm::Sha256 => octets::all_into(buf, at, b"\thmac-sha256"),
        Algorithm::Sha384 => octets::all_into(buf, at, b"\thmac-sha384"),
        Algorithm::Sha512 => octets::all_into(buf, at, b"\thmac-sha512"),
    }
}
