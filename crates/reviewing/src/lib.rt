// Judging another server's replies (02, CR 12): its reply against what the message call writes on the table of a listing.
#![tactic(auto)]

ghost use Rattle.std.specs.Prelude.{◌≡◌, length};
ghost use Rattle.model.specs.Compare.{ours_of, compared, compare_on};
ghost use Rattle.store.specs.Layout.{table_of};
ghost use Rattle.step.specs.Steps.{given_by};
ghost use Rattle.reviewing.specs.Ours.{Fills};

use model::{Verdict, Verdicts};

// What the message call writes into a buffer of 65,535 octets: how many.
fn write_ours<'a>(
    words: &mut [u64],
    suffixes: &[u8],
    verdicts: Verdicts,
    message: &'a [u8],
    offer: &'a [u8],
    second: &[u8],
    reply: &mut [u8],
) -> usize
    requires { length reply.old ≡ 65535 }
    ensures { Fills (ours_of (table_of words.old suffixes.now) (given_by verdicts offer.now second.now) message.now)
        reply.new result }
{
    let a = server::message(words, suffixes, verdicts, message, offer, second, reply);
    a.length as usize
}

// The verdict on theirs, on the table that the words and octets show.
fn review_on<'a>(
    words: &mut [u64],
    suffixes: &[u8],
    verdicts: Verdicts,
    message: &'a [u8],
    offer: &'a [u8],
    second: &[u8],
    theirs: &[u8],
    reply: &mut [u8],
) -> Verdict
    requires { length reply.old ≡ 65535 }
    ensures { result ≡ compared
        (ours_of (table_of words.old suffixes.now) (given_by verdicts offer.now second.now) message.now)
        theirs.now }
{
    let n = write_ours(words, suffixes, verdicts, message, offer, second, reply);
    comparing::compare(&reply[..n], theirs)
}

// Compares the other server's reply, its TSIG taken off, with what the message call writes on the table of a listing. The number is 0 where it is accepted. Refused, in
// this order, as loading is: LINE (18: the place is the line), TABLE (1); then DIFFERS (21) at place 0 where just one reply is empty (a call that is refused or has no reply
// makes ours empty), SIZE (4), FORMAT (6), DIFFERS with the place in theirs of the first field that differs. The words, the octets and the buffer that are lent are for
// the work: what they hold afterwards is not said.
pub fn review<'a>(
    listing: &[u8],
    verdicts: Verdicts,
    message: &'a [u8],
    offer: &'a [u8],
    second: &[u8],
    theirs: &[u8],
    words: &mut [u64; 1091],
    suffixes: &mut [u8; 8192],
    reply: &mut [u8; 65535],
) -> Verdict
    ensures { result ≡ compare_on listing.now (given_by verdicts offer.now second.now) message.now theirs.now }
{
    let e = loading::load(listing, &mut words[..], &mut suffixes[..]);
    if e.number != 0 {
        return Verdict {
            number: e.number,
            place: e.line,
        };
    }
    review_on(
        &mut words[..],
        &suffixes[..],
        verdicts,
        message,
        offer,
        second,
        theirs,
        &mut reply[..],
    )
}
