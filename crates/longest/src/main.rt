// Reads the two names that ask most of the name reader: the longest chain of pointers, and the deepest name, of labels and pointers by turns. Standard
// input that begins with 'c' asks for the chain alone, with 'd' for the deepest name alone, and with anything else for neither; empty, for both.
#![tactic(auto)]

ghost use Rattle.std.specs.Prelude.{◌<◌};

use compression::Name;
use std::io::Read;

// Reads the name at a place of a message. What cannot be written is left out.
fn read(rt: &impl Print, m: &[u8], at: usize) {
    let mut name = [0u8; 255];
    let _ = match compression::read_name(m, &mut name, at) {
        Ok(Name { len, next }) => println!(rt; "octets {len}\nnext place {next}"),
        Err(place) => println!(rt; "fails at {place}"),
    };
}

// A pointer to a place. It has 14 bits for it.
fn pointer(to: usize) -> [u8; 2]
    requires { to < 16384 }
{
    [(192 + to / 256) as u8, (to % 256) as u8]
}

// A pointer can lead to place 16383 and no further. The final 0 stands at 12, a pointer at every second place from 13 on, each to the one before it:
// 8187 pointers, the last of them at 16385.
fn chain(rt: &impl Print) {
    let mut m = [0u8; 16387];
    for i in 0..8187 {
        let at = 13 + 2 * i;
        let to = if i == 0 { 12 } else { at - 2 };
        m[at..at + 2].copy_from_slice(&pointer(to));
    }
    read(rt, &m, 16385);
}

// An expanded name has at most 127 labels. The final 0 stands at 12, and from 13 on 127 runs of a label of one octet and a pointer, each to the run before
// it; a pointer to the last run stands at 521.
fn deepest(rt: &impl Print) {
    let mut m = [0u8; 523];
    for i in 0..127 {
        let at = 13 + 4 * i;
        let to = if i == 0 { 12 } else { at - 4 };
        m[at] = 1;
        m[at + 1] = b'a';
        m[at + 2..at + 4].copy_from_slice(&pointer(to));
    }
    m[521..].copy_from_slice(&pointer(517));
    read(rt, &m, 521);
}

fn main(rt: HostRuntime) {
    let mut input = [0u8; 1];
    let asked = match rt.stdin().read(&mut input) {
        Ok(1) => Some(input[0]),
        _ => None,
    };
    if matches!(asked, None | Some(b'c')) {
        chain(&rt);
    }
    if matches!(asked, None | Some(b'd')) {
        deepest(&rt);
    }
}
