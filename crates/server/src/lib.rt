// Message, the call on a lent table that judges a message and writes the reply (document 01, "The desk's business"): gate, read, find, step, store. Every value of
// every argument is accepted, lent slices of any length included; the call ends with an answer or a refusal of its list. The contract is an equation with the
// crate model's Calls, on the table that the lent words and octets show.
#![tactic(auto)]

ghost use Rattle.std.specs.Prelude.{◌≡◌, true, ◌<◌, length};
ghost use Rattle.model.specs.Tables.{names_of, table_rules};
ghost use Rattle.model.specs.Calls.{message as messageCall, octets_owner, served, message_on};
ghost use Rattle.store.specs.Layout.{layout_rule, table_of};
ghost use Rattle.outcomes.specs.Gate.{Open};
ghost use Rattle.step.specs.Steps.{given_by, Settles};
ghost use Rattle.server.specs.Serve.{Answered, AnsweredRest, RowKept, FoundIn, owner_as, suffix_as, Kept};

use judging::Owner;
use model::{Answer, Verdicts};
use results::Refusal;
use step::Step;

// Stores the pair of a row as a step left it, unless the step left it as it was; a refused one does.
fn keep_row(words: &mut [u64], suffixes: &[u8], row: usize, s: Step) -> Answer
    requires { (layout_rule words.old suffixes.now ≡ true) × (row < length (table_of words.old suffixes.now).rows) × Settles s.after s.answer.number }
    ensures { RowKept row s words.old suffixes.now words.new result }
{
    let a = s.answer;
    let after = s.after;
    match after {
        None => a,
        Some(p) => {
            outcomes::settle(words, suffixes, row, p, a.serial);
            a
        }
    }
}

// The pair of the row that a search found, with its number; nobody where it found none.
fn owner_of(words: &[u64], suffixes: &[u8], found: Option<usize>) -> Option<Owner>
    requires { (layout_rule words.now suffixes.now ≡ true) × FoundIn (table_of words.now suffixes.now) found }
    ensures { result ≡ owner_as (table_of words.now suffixes.now) found }
{
    match found {
        Some(row) => {
            let pair = outcomes::pair_of(words, suffixes, row);
            Some(Owner {
                number: row as u64 + 1,
                pair,
            })
        }
        None => None,
    }
}

// Its suffix, lent; no octets where it found none.
fn suffix_of<'a>(words: &[u64], suffixes: &'a [u8], found: Option<usize>) -> &'a [u8]
    requires { (layout_rule words.now suffixes.now ≡ true) × FoundIn (table_of words.now suffixes.now) found }
    ensures { result.now ≡ suffix_as (table_of words.now suffixes.now) found }
{
    match found {
        Some(row) => outcomes::suffix_of(words, suffixes, row),
        None => &suffixes[..0],
    }
}

// The end of a step on what a search found.
fn keep(words: &mut [u64], suffixes: &[u8], found: Option<usize>, s: Step) -> Answer
    requires { (layout_rule words.old suffixes.now ≡ true) × FoundIn (table_of words.old suffixes.now) found × Settles s.after s.answer.number }
    ensures { Kept found s words.old suffixes.now words.new result }
{
    match found {
        Some(row) => keep_row(words, suffixes, row, s),
        None => s.answer,
    }
}

// A message call that passed TABLE, TIME and CLOCK. The step is called at one place: the compiler then puts it here, and nothing that was read is copied again.
fn message_passed<'a>(
    words: &mut [u64],
    suffixes: &[u8],
    verdicts: Verdicts,
    m: &'a [u8],
    offer: &'a [u8],
    second: &[u8],
    reply: &mut [u8],
) -> Answer
    requires { Open words.old suffixes.now verdicts.now }
    ensures { AnsweredRest (λ t. served t (messageCall (given_by verdicts offer.now second.now) (length reply.old) m.now))
        (octets_owner (names_of (table_of words.old suffixes.now)) m.now)
        words.old suffixes.now words.new reply.old reply.new result }
{
    let message = &m[..]; // its two words: copied as one of 16 octets, they would wait for the stores that made them
    let reading = contents::read(message);
    let found = locating::row_read(words, suffixes, message, reading);
    let who = owner_of(words, suffixes, found);
    let suffix = suffix_of(words, suffixes, found);
    let s = step::message_step(m, reading, who, suffix, verdicts, offer, second, reply);
    keep(words, suffixes, found, s)
}

// The message call on a table that keeps the rules: all of it but TABLE.
pub fn message_ruled<'a>(
    words: &mut [u64],
    suffixes: &[u8],
    verdicts: Verdicts,
    message: &'a [u8],
    offer: &'a [u8],
    second: &[u8],
    reply: &mut [u8],
) -> Answer
    requires { table_rules (table_of words.old suffixes.now) ≡ true }
    ensures { Answered (λ t. message_on t (given_by verdicts offer.now second.now) (length reply.old) message.now)
        (octets_owner (names_of (table_of words.old suffixes.now)) message.now)
        words.old suffixes.now words.new reply.old reply.new result }
{
    match outcomes::enter_ruled(words, suffixes, verdicts.now) {
        Ok(()) => message_passed(words, suffixes, verdicts, message, offer, second, reply),
        Err(refusal) => outcomes::answered(Err(refusal)),
    }
}

// Message: judges a message, of which the time, the MAC's verdict, the keying verdict, the offered key data and the lent KEY record are given, changes the pair that it belongs to as judging
// decides, and writes the reply into the first octets of `reply`. Returns the reply's length, the TSIG error, the skew, and the pair and the serial
// of the key that signed. Refused, in this order, with TABLE (1), TIME (2), CLOCK (3), SIZE (4), OFFER (5), FORMAT (6), NOTQUERY (7), KEYREC (19), ROOM (8).
pub fn message<'a>(
    words: &mut [u64],
    suffixes: &[u8],
    verdicts: Verdicts,
    message: &'a [u8],
    offer: &'a [u8],
    second: &[u8],
    reply: &mut [u8],
) -> Answer
    ensures { Answered (λ t. message_on t (given_by verdicts offer.now second.now) (length reply.old) message.now)
        (octets_owner (names_of (table_of words.old suffixes.now)) message.now)
        words.old suffixes.now words.new reply.old reply.new result }
{
    if !ruling::rules_ok(words, suffixes) {
        return outcomes::answered(Err(Refusal::Table));
    }
    message_ruled(words, suffixes, verdicts, message, offer, second, reply)
}
