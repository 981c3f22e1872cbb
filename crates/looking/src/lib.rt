// Look, the call on a lent table that tells whose key a message names (document 01, "The desk's business"): gate, read, find, step. Every value of every argument
// is accepted, lent slices of any length included; the call ends with an answer or a refusal of its list, and changes nothing. The contract is an equation with
// the crate model's Calls, on the table that the lent words and octets show.
#![tactic(auto)]

ghost use Rattle.std.specs.Prelude.{◌≡◌};
ghost use Rattle.model.specs.Calls.{look as lookCall, served, look_on};
ghost use Rattle.store.specs.Layout.{table_of};
ghost use Rattle.outcomes.specs.Ends.{shown};
ghost use Rattle.looking.specs.Look.{Sound};

use judging::Owner;
use model::Answer;
use results::Refusal;

// A look that passed TABLE.
fn look_passed(words: &[u64], suffixes: &[u8], message: &[u8]) -> Answer
    requires { Sound words.now suffixes.now }
    ensures { shown words.now suffixes.now result ≡ served (table_of words.now suffixes.now) (lookCall message.now) }
{
    let reading = contents::read(message);
    match locating::row_read(words, suffixes, message, reading) {
        Some(row) => {
            let pair = outcomes::pair_of(words, suffixes, row);
            let suffix = outcomes::suffix_of(words, suffixes, row);
            let who = Some(Owner {
                number: row as u64 + 1,
                pair,
            });
            step::look_step(message, reading, who, suffix)
        }
        None => { step::look_step(message, reading, None, &message[..0]) }
    }
}

// Look: the pair and the serial of the adopted key whose name and algorithm a well-placed TSIG gives, expired or not, else 0 and 0. It changes
// nothing and takes no time. Refused, in this order, with TABLE (1), SIZE (4), FORMAT (6), NOTQUERY (7).
pub fn look(words: &[u64], suffixes: &[u8], message: &[u8]) -> Answer
    ensures { shown words.now suffixes.now result ≡ look_on (table_of words.now suffixes.now) message.now }
{
    if !ruling::rules_ok(words, suffixes) {
        return outcomes::answered(Err(Refusal::Table));
    }
    look_passed(words, suffixes, message)
}
