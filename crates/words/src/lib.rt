// Words of text, and the numbers and octets that they say.
#![tactic(auto)]

ghost use Rattle.std.specs.Prelude.{◌≡◌, ◌*◌, ◌<◌, ◌≤◌, length, IfSome};
ghost use Rattle.model.specs.Text.{is_word, is_digit, nibble, number_of, unhex};
ghost use Rattle.words.specs.Reads.{OctetsRead};

// Whether two words are the same.
pub fn is_word(a: &[u8], b: &[u8]) -> bool
    ensures { result ≡ is_word a.now b.now }
{
    a == b
}

// Whether an octet is a decimal digit.
#[tactic(auto, unfolding(model::specs::Text::is_digit))]
fn is_digit(c: u8) -> bool
    ensures { result ≡ is_digit c }
{
    matches!(c, b'0'..=b'9')
}

// A decimal number below 2^64.
pub fn read_number(w: &[u8]) -> Option<u64>
    ensures { result ≡ number_of w.now }
{
    if w.is_empty() {
        return None;
    }
    let mut n: u64 = 0;
    for c in w {
        if !is_digit(*c) {
            return None;
        }
        n = n.checked_mul(10)?.checked_add(u64::from(*c - b'0'))?;
    }
    Some(n)
}

// The value of a hexadecimal digit.
fn nibble_of(x: u8) -> Option<u32>
    ensures value { result ≡ nibble x }
    ensures bound { IfSome result (λ n. n < 16) }
{
    char::from(x).to_digit(16)
}

// Octets in hexadecimal, written to the front of out.
pub fn unhex_into(w: &[u8], out: &mut [u8]) -> Option<usize>
    requires { length w.now ≤ 2 * length out.old }
    ensures { OctetsRead (unhex w.now) out.old out.new result }
{
    if w.len() % 2 != 0 {
        return None;
    }
    let size = w.len() / 2;
    for n in 0..size {
        let high = nibble_of(w[2 * n])?;
        let low = nibble_of(w[2 * n + 1])?;
        out[n] = (high * 16 + low) as u8;
    }
    Some(size)
}
