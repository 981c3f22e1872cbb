// Another server's reply judged, for C and Rust to link (02, CR 12). Every value of every argument is accepted.
#![tactic(auto)]

ghost use Rattle.model.specs.Compare.{compare_on};
ghost use Rattle.capi_compare.specs.Told.{handed, Told};

use model::{Verdict, Verdicts};

fn tell(place: &mut [u64; 1], v: Verdict) -> u64
    ensures { Told v place.new result }
{
    *place = [v.place];
    v.number
}

// Compare: whether the other server's reply `theirs`, its TSIG taken off, has the meaning of what luffcringle_message writes into a buffer of 65,535 octets on the table
// of the listing. 0 where it is accepted. Refused, in this order, with LINE (18: *place is the first line that does not read, from 1), TABLE (1), DIFFERS (21) at place 0
// where just one reply is empty (a call that is refused or has no reply makes ours empty), SIZE (4), FORMAT (6: *place is where reading theirs first failed), DIFFERS with
// the place in theirs of the first field that differs; else *place is 0. The words, the octets and the buffer are lent for the work: what they hold afterwards is not
// said.
#[unsafe(no_mangle)]
pub extern "C" fn luffcringle_compare<'a>(
    listing: &[u8],
    time: u64,
    good: bool,
    message: &'a [u8],
    offer: &'a [u8],
    fits: bool,
    second: &[u8],
    theirs: &[u8],
    words: &mut [u64; 1091],
    suffixes: &mut [u8; 8192],
    reply: &mut [u8; 65535],
    place: &mut [u64; 1],
) -> u64
    ensures { Told (compare_on listing.now (handed time good offer.now fits second.now) message.now theirs.now)
        place.new result }
{
    let verdicts = Verdicts {
        now: time,
        good,
        fits,
    };
    let v = reviewing::review(
        listing, verdicts, message, offer, second, theirs, words, suffixes, reply,
    );
    tell(place, v)
}
