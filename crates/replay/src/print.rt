// What the replay prints (docs/SCRIPT.md), as text in a lent buffer.
use model::Answer;
use std::fmt::Write;
use std::{fmt, str};

// The first n octets of s, or all of them.
pub fn front(s: &[u8], n: usize) -> &[u8] {
    &s[..n.min(s.len())]
}

// The first n elements of s to write to, or all of them.
pub fn front_mut<T>(s: &mut [T], n: usize) -> &mut [T] {
    let end = n.min(s.len());
    &mut s[..end]
}

// Text at the front of a buffer. A buffer that is full takes no more; the program's holds the longest result.
#[derive(Drop)]
pub struct Text<'a> {
    buffer: &'a mut [u8],
    length: usize,
}

impl<'a> Text<'a> {
    pub fn new(buffer: &'a mut [u8]) -> Text<'a> {
        Text { buffer, length: 0 }
    }

    pub fn octets(&self) -> &[u8] {
        front(self.buffer, self.length)
    }

    pub fn clear(&mut self) {
        self.length = 0;
    }

    pub fn push(&mut self, octets: &[u8]) {
        if let Some(free) = self.buffer.get_mut(self.length..) {
            let size = octets.len().min(free.len());
            free[..size].copy_from_slice(&octets[..size]);
            self.length += size;
        }
    }
}

impl fmt::Write for Text<'_> {
    fn write_str(&mut self, s: &str) -> fmt::Result {
        self.push(s.as_bytes());
        Ok(())
    }
}

// Octets in lower-case hexadecimal; `-` for none.
#[derive(Clone, Copy)]
pub struct Hex<'a>(pub &'a [u8]);

const DIGITS: &[u8; 16] = b"0123456789abcdef";

impl fmt::Display for Hex<'_> {
    fn fmt<W: fmt::Write>(&self, f: &mut fmt::Formatter<W>) -> fmt::Result {
        if self.0.is_empty() {
            return write!(f, "-");
        }
        // By pieces, since a call for each octet costs more than its digits do. Digits are ASCII, so no error comes of reading them as text.
        for piece in self.0.chunks(32) {
            let mut digits = [[0u8; 2]; 32];
            for (pair, octet) in digits.iter_mut().zip(piece) {
                *pair = [
                    DIGITS[usize::from(octet / 16)],
                    DIGITS[usize::from(octet % 16)],
                ];
            }
            let digits = front(digits.as_flattened(), 2 * piece.len());
            f.write_str(str::from_utf8(digits).map_err(|_| fmt::Error)?)?;
        }
        Ok(())
    }
}

// NUMBER LENGTH TSIGERROR SKEW PAIR SERIAL REPLY PLACE
pub fn answer(text: &mut Text, a: Answer, reply: &[u8]) -> fmt::Result {
    write!(text, "{} {} {} {} ", a.number, a.length, a.error, a.skew)?;
    writeln!(text, "{} {} {} {}", a.pair, a.serial, Hex(reply), a.place)
}
