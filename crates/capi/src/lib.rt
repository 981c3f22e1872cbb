// The public calls on a lent table, for C and Rust to link: numbers, lent arrays and lent slices alone. include/luffcringle.h declares them. Each takes every
// value of every argument, writes its answer in seven words (number, length, TSIG error, skew, pair, serial, place; a batch writes its items') and returns the
// number. The table lies in 1091 words and 8192 octets (store/specs/Layout.antt); where they hold none, every call but a new table is TABLE (1). TABLE changes
// nothing of what is lent; every other refusal sets at most the clock. The inquiries beside them take no time, leave the table and answer into words of their own.
#![tactic(auto)]

ghost use Rattle.std.specs.Prelude.{List, [], ◌∷◌, ◌≡◌, ℕ, ◌-◌, length, length as octets_in};
ghost use Rattle.model.specs.Tables.{names_of};
ghost use Rattle.model.specs.Calls.{enrol_on, close_on, issue_on, revoke_on, look_on, message_on, octets_owner};
ghost use Rattle.model.specs.Inquiries.{Asks, tested, pair_suffixed, pair_of_key, key_name_of, pair_shown, moves_of, asks_of};
ghost use Rattle.store.specs.Layout.{keys_at, table_of};
ghost use Rattle.batches.specs.Batched.{items_in, BatchShows};
ghost use Rattle.outcomes.specs.Ends.{Own};
ghost use Rattle.asking.specs.Asking.{Shows};
ghost use Rattle.inquiries.specs.Inquired.{PairTold};
ghost use Rattle.capi.specs.Told.{handed, Told, Lent, NewLent, MessageLent};
ghost use Rattle.capi.specs.Inquired.{FoundTold, SpeltTold, moves_words, second_words, asked_words, unasked_words, AsksTold};

use asking::{Asked, Unasked};
use contents::Unread;
use inquiries::Spelling;
use model::{Answer, FoundPair, Span, Verdicts};

// ── Answers ─────────────────────────────────────────────────────────────────────────────────────────────────────────

fn tell(answer: &mut [u64; 7], a: Answer) -> u64
    ensures { Told a answer.new result }
{
    let skew = results::skew_word(a.skew);
    *answer = [a.number, a.length, a.error, skew, a.pair, a.serial, a.place];
    a.number
}

// ── The calls ───────────────────────────────────────────────────────────────────────────────────────────────────────

// New table, whatever was lent. Refused with TIME (2).
#[unsafe(no_mangle)]
pub extern "C" fn luffcringle_new_table(
    words: &mut [u64; 1091],
    suffixes: &[u8; 8192],
    time: u64,
    answer: &mut [u64; 7],
) -> u64
    ensures { NewLent time words.old suffixes.now words.new answer.new result }
{
    let a = operator::new_table(&mut words[..], &suffixes[..], time);
    tell(answer, a)
}

// Enrol. Refused, in this order, with TABLE (1), TIME (2), CLOCK (3), NAME (12), TERM (13), TWIN (14), FULL (15), SPENT (11).
#[unsafe(no_mangle)]
pub extern "C" fn luffcringle_enrol(
    words: &mut [u64; 1091],
    suffixes: &mut [u8; 8192],
    time: u64,
    suffix: &[u8],
    lifetime: u64,
    fresh: u64,
    algorithm: u64,
    answer: &mut [u64; 7],
) -> u64
    ensures { Lent (λ t. enrol_on t time suffix.now lifetime fresh algorithm) words.old suffixes.old words.new suffixes.new answer.new result }
{
    let a = operator::enrol(
        &mut words[..],
        &mut suffixes[..],
        time,
        suffix,
        lifetime,
        fresh,
        algorithm,
    );
    tell(answer, a)
}

// Close. Refused, in this order, with TABLE (1), TIME (2), CLOCK (3), NOPAIR (9).
#[unsafe(no_mangle)]
pub extern "C" fn luffcringle_close(
    words: &mut [u64; 1091],
    suffixes: &mut [u8; 8192],
    time: u64,
    pair: u64,
    answer: &mut [u64; 7],
) -> u64
    ensures { Lent (λ t. close_on t time pair) words.old suffixes.old words.new suffixes.new answer.new result }
{
    let a = operator::close(&mut words[..], &mut suffixes[..], time, pair);
    tell(answer, a)
}

// Issue. Refused, in this order, with TABLE (1), TIME (2), CLOCK (3), NOPAIR (9), SPENT (11), TERM (13).
#[unsafe(no_mangle)]
pub extern "C" fn luffcringle_issue(
    words: &mut [u64; 1091],
    suffixes: &[u8; 8192],
    time: u64,
    pair: u64,
    algorithm: u64,
    answer: &mut [u64; 7],
) -> u64
    ensures { Lent (λ t. issue_on t time pair algorithm) words.old suffixes.now words.new suffixes.now answer.new result × Own (pair - 1) words.old words.new }
{
    let a = operator::issue(&mut words[..], &suffixes[..], time, pair, algorithm);
    tell(answer, a)
}

// Revoke early. Refused, in this order, with TABLE (1), TIME (2), CLOCK (3), NOPAIR (9), NOKEY (10).
#[unsafe(no_mangle)]
pub extern "C" fn luffcringle_revoke(
    words: &mut [u64; 1091],
    suffixes: &[u8; 8192],
    time: u64,
    pair: u64,
    answer: &mut [u64; 7],
) -> u64
    ensures { Lent (λ t. revoke_on t time pair) words.old suffixes.now words.new suffixes.now answer.new result × Own (pair - 1) words.old words.new }
{
    let a = operator::revoke(&mut words[..], &suffixes[..], time, pair);
    tell(answer, a)
}

// Look. Refused, in this order, with TABLE (1), SIZE (4), FORMAT (6), NOTQUERY (7).
#[unsafe(no_mangle)]
pub extern "C" fn luffcringle_look(
    words: &[u64; 1091],
    suffixes: &[u8; 8192],
    message: &[u8],
    answer: &mut [u64; 7],
) -> u64
    ensures { Told (look_on (table_of words.now suffixes.now) message.now).outcome.answer answer.new result }
{
    let a = looking::look(&words[..], &suffixes[..], message);
    tell(answer, a)
}

// Message. Refused, in this order, with TABLE (1), TIME (2), CLOCK (3), SIZE (4), OFFER (5), FORMAT (6), NOTQUERY (7), KEYREC (19), ROOM (8). The reply fills the first octets
// of its buffer, as many as the answer says.
#[unsafe(no_mangle)]
pub extern "C" fn luffcringle_message<'a>(
    words: &mut [u64; 1091],
    suffixes: &[u8; 8192],
    time: u64,
    good: bool,
    message: &'a [u8],
    offer: &'a [u8],
    fits: bool,
    second: &[u8],
    reply: &mut [u8],
    answer: &mut [u64; 7],
) -> u64
    ensures { MessageLent (λ t. message_on t (handed time good offer.now fits second.now) (length reply.old) message.now)
        (octets_owner (names_of (table_of words.old suffixes.now)) message.now)
        words.old suffixes.now words.new reply.old reply.new answer.new result }
{
    let verdicts = Verdicts {
        now: time,
        good,
        fits,
    };
    let a = server::message(
        &mut words[..],
        &suffixes[..],
        verdicts,
        message,
        offer,
        second,
        reply,
    );
    tell(answer, a)
}

// Batch: the message calls of the first `count` items, up to 64, in turn. Refused whole, in this order, with TABLE (1), BATCH (17): then nothing that is lent
// changes. Each item's answer stands in seven words of `answers`, and the replies one after another in the first octets of `replies`. Returns 0 where it is done,
// whatever its items' answers are.
#[unsafe(no_mangle)]
pub extern "C" fn luffcringle_batch(
    words: &mut [u64; 1091],
    suffixes: &[u8; 8192],
    count: u64,
    items: &[u64; 576],
    octets: &[u8],
    answers: &mut [u64; 448],
    replies: &mut [u8],
) -> u64
    ensures { BatchShows octets.now (items_in items.now count)
        words.old suffixes.now words.new answers.old answers.new replies.old replies.new result }
{
    batches::batch(
        &mut words[..],
        &suffixes[..],
        count,
        items,
        octets,
        answers,
        replies,
    )
}

// ── Inquiries ───────────────────────────────────────────────────────────────────────────────────────────────────────

fn tell_found(pair: &mut [u64; 1], f: FoundPair) -> u64
    ensures { FoundTold f pair.new result }
{
    *pair = [f.pair];
    f.number
}

// Test: TABLE (1) where the lent table breaks a rule, else 0.
#[unsafe(no_mangle)]
pub extern "C" fn luffcringle_test(words: &[u64; 1091], suffixes: &[u8; 8192]) -> u64
    ensures { result ≡ tested (table_of words.now suffixes.now) }
{
    inquiries::test(&words[..], &suffixes[..])
}

// The number of the pair with this suffix. Refused, in this order, with TABLE (1), NOPAIR (9).
#[unsafe(no_mangle)]
pub extern "C" fn luffcringle_pair_of_suffix(
    words: &[u64; 1091],
    suffixes: &[u8; 8192],
    suffix: &[u8],
    pair: &mut [u64; 1],
) -> u64
    ensures { FoundTold (pair_suffixed (table_of words.now suffixes.now) suffix.now) pair.new result }
{
    let f = inquiries::pair_of_suffix(&words[..], &suffixes[..], suffix);
    tell_found(pair, f)
}

// The number of the pair whose suffix follows the first label of this wire name, whether or not such a key exists. Refused, in this order, with TABLE (1), NAME (12),
// NOPAIR (9).
#[unsafe(no_mangle)]
pub extern "C" fn luffcringle_pair_of_key(
    words: &[u64; 1091],
    suffixes: &[u8; 8192],
    name: &[u8],
    pair: &mut [u64; 1],
) -> u64
    ensures { FoundTold (pair_of_key (table_of words.now suffixes.now) name.now) pair.new result }
{
    let f = inquiries::pair_of_key(&words[..], &suffixes[..], name);
    tell_found(pair, f)
}

fn tell_length(length: &mut [u64; 1], s: Spelling) -> u64
    ensures { (result ≡ s.number) × (length.new ≡ (s.length ∷ [])) }
{
    *length = [s.length];
    s.number
}

// The wire name of the key with this serial, there or gone, in the pair of this number, into the first octets of `name`. Refused, in this order, with TABLE (1),
// NOPAIR (9), NOKEY (10: the serial is 0, or not below the pair's next one), ROOM (8).
#[unsafe(no_mangle)]
pub extern "C" fn luffcringle_key_name(
    words: &[u64; 1091],
    suffixes: &[u8; 8192],
    pair: u64,
    serial: u64,
    name: &mut [u8],
    length: &mut [u64; 1],
) -> u64
    ensures { SpeltTold (key_name_of (table_of words.now suffixes.now) pair serial (octets_in name.old)) name.old name.new length.new result }
{
    let s = inquiries::key_name(&words[..], &suffixes[..], pair, serial, name);
    tell_length(length, s)
}

// The pair of this number in fourteen words: lifetime, fresh period, next serial; its keys (0 none, 1 an adopted key, 2 an adopted and a waiting key); then of the
// adopted key and of the waiting key serial, algorithm, inception, partial and expiry each, zeros where there is none. Refused, in this order, with TABLE (1), NOPAIR (9).
#[unsafe(no_mangle)]
pub extern "C" fn luffcringle_pair(
    words: &[u64; 1091],
    suffixes: &[u8; 8192],
    pair: u64,
    shown: &mut [u64; 14],
) -> u64
    ensures { PairTold (pair_shown (table_of words.now suffixes.now) pair) shown.new result }
{
    inquiries::pair_words(&words[..], &suffixes[..], pair, shown)
}

// What a call did to a pair's keys, from its words (as luffcringle_pair writes them) before and after: the serial of the key that was made, of the waiting key that was
// adopted, of the adopted key that ended, of the waiting key that was dropped; 0 where there is none.
#[unsafe(no_mangle)]
pub extern "C" fn luffcringle_moves(before: &[u64; 14], after: &[u64; 14], moves: &mut [u64; 4])
    ensures { moves.new ≡ moves_words (moves_of (keys_at before.now 3) (keys_at after.now 3)) }
{
    let m = inquiries::moves(before, after);
    *moves = [m.made, m.adopted, m.ended, m.dropped];
}

// The KEY record's data in three words: 1, place and size, or three zeros where there is none.
fn second_words(second: Option<Span>) -> [u64; 3]
    ensures { result ≡ second_words second }
{
    match second {
        Some(p) => [1, p.from as u64, p.size as u64],
        None => [0, 0, 0],
    }
}

// A refusal in two words: its number, and the place where reading failed.
fn unasked_words(unasked: Unasked) -> [u64; 2]
    ensures { result ≡ unasked_words unasked }
{
    match unasked {
        Unasked::Unread(unread) => match unread {
            Unread::Size => [4, 0],
            Unread::Broken { place } => [6, place as u64],
        },
        Unasked::NotQuery => [7, 0],
    }
}

fn tell_asked(asked: &mut [u64; 10], a: Asked)
    ensures { asked.new ≡ asked_words a (second_words a.second) }
{
    let key = a.key;
    let second = second_words(a.second);
    *asked = [
        0,
        a.mode,
        a.algorithm,
        a.inception,
        a.expiration,
        key.from as u64,
        key.size as u64,
        second[0],
        second[1],
        second[2],
    ];
}

fn tell_asks(asked: &mut [u64; 10], asks: Result<Asked, Unasked>) -> u64
    ensures { (m : List ℕ) (a : Asks) → Shows m a asks → AsksTold m a asked.new result }
{
    match asks {
        Ok(a) => {
            tell_asked(asked, a);
            0
        }
        Err(unasked) => {
            let told = unasked_words(unasked);
            *asked = [told[1], 0, 0, 0, 0, 0, 0, 0, 0, 0];
            told[0]
        }
    }
}

// What a message asks for, signed or not, in ten words: the place where reading failed, beside FORMAT; the TKEY's mode (0 where nothing is asked), algorithm (256, 384,
// 512, or 0 for any other), inception and expiration; place and size of its key data in the message; 1, place and size of the data of the only KEY record of the
// additional section, 0, 0 and 0 where there is none. Refused, in this order, with SIZE (4), FORMAT (6), NOTQUERY (7).
#[unsafe(no_mangle)]
pub extern "C" fn luffcringle_asks(message: &[u8], asked: &mut [u64; 10]) -> u64
    ensures { AsksTold message.now (asks_of message.now) asked.new result }
{
    let a = asking::asks(message);
    tell_asks(asked, a)
}
