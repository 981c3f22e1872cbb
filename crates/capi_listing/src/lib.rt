// The table as text, for C and Rust to link (02, CR 7): list, load and mend over a lent table. include/luffcringle.h declares them. Each takes every value of
// every argument and returns its number; a refusal changes nothing that is lent but its own words, which are 0 beside it (but for the line beside LINE).
#![tactic(auto)]

ghost use Rattle.store.specs.Layout.{table_of};
ghost use Rattle.std.specs.Prelude.{◌≡◌};
ghost use Rattle.capi_listing.specs.Told.{refusal_number, ListedTold, EndTold, MendingTold, ListLent, LoadLent, MendLent};

use listing::ListError;
use loading::{Ended, Mending};

// A refusal's number.
fn refusal_number(e: ListError) -> u64
    ensures { result ≡ refusal_number e }
{
    match e {
        ListError::Broken => 1,
        ListError::Long => 8,
    }
}

fn tell_listed(length: &mut [u64; 1], l: Result<usize, ListError>) -> u64
    ensures { ListedTold l length.new result }
{
    match l {
        Ok(n) => {
            *length = [n as u64];
            0
        }
        Err(e) => {
            *length = [0];
            refusal_number(e)
        }
    }
}

// List: the table as text into the first octets of `text`, *length of them. Refused, in this order, with TABLE (1), ROOM (8): then *length is 0, and the octets stay.
#[unsafe(no_mangle)]
pub extern "C" fn luffcringle_list(
    words: &[u64; 1091],
    suffixes: &[u8; 8192],
    text: &mut [u8],
    length: &mut [u64; 1],
) -> u64
    ensures { ListLent (table_of words.now suffixes.now) text.old text.new length.new result }
{
    let l = listing::list(words, suffixes, text);
    tell_listed(length, l)
}

fn tell_end(line: &mut [u64; 1], e: Ended) -> u64
    ensures { EndTold e line.new result }
{
    *line = [e.line];
    e.number
}

// Load: the table of a listing takes the place of the lent one, and *line is 0. Refused, in this order, with LINE (18: *line is the first line that does not read,
// from 1), TABLE (1).
#[unsafe(no_mangle)]
pub extern "C" fn luffcringle_load(
    words: &mut [u64; 1091],
    suffixes: &mut [u8; 8192],
    text: &[u8],
    line: &mut [u64; 1],
) -> u64
    ensures { LoadLent text.now words.old suffixes.old words.new suffixes.new line.new result }
{
    let e = loading::load(text, words, suffixes);
    tell_end(line, e)
}

fn tell_mending(told: &mut [u64; 2], m: Mending) -> u64
    ensures { MendingTold m told.new result }
{
    *told = [m.line, m.dropped as u64];
    m.number
}

// Mend: what can be kept of a listing takes the place of the lent table. `told` is the line beside LINE, and how many lines were dropped; each is named in two words
// of `named`: its number, from 1, and the reason (18, 14, 15 or 1). Refused, in this order, with LINE (18: line 1), TABLE (1: line 1 breaks a rule), ROOM (8).
// It does not raise the floor.
#[unsafe(no_mangle)]
pub extern "C" fn luffcringle_mend(
    words: &mut [u64; 1091],
    suffixes: &mut [u8; 8192],
    text: &[u8],
    named: &mut [u64],
    told: &mut [u64; 2],
) -> u64
    ensures { MendLent text.now words.old suffixes.old named.old words.new suffixes.new named.new told.new result }
{
    let m = loading::mend(text, words, suffixes, named);
    tell_mending(told, m)
}
