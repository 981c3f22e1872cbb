// The numbers that a call returns (01, "Numbers a caller sees"; 02, CR 6): those of a refusal, those of a call that has no reply, and a skew as a word.
#![tactic(auto)]

ghost use Rattle.std.specs.Prelude.{◌≡◌};
ghost use Rattle.results.specs.Bare.{bare_as};
ghost use Rattle.results.specs.Numbers.{number_of};
ghost use Rattle.results.specs.Words.{twos_complement};

use model::Answer;

// The refusals of a call or an inquiry, each with its number (document 01, "Numbers a caller sees"; 02, CR 10).
#[derive(Clone, Copy)]
pub enum Refusal {
    Table,
    Time,
    Clock,
    Size,
    Offer,
    Format,
    NotQuery,
    Room,
    NoPair,
    NoKey,
    Spent,
    Name,
    Term,
    Twin,
    Full,
    KeyRec,
}

impl Refusal {
    pub fn number(self) -> u64
        ensures { result ≡ number_of self }
    {
        match self {
            Refusal::Table => 1,
            Refusal::Time => 2,
            Refusal::Clock => 3,
            Refusal::Size => 4,
            Refusal::Offer => 5,
            Refusal::Format => 6,
            Refusal::NotQuery => 7,
            Refusal::Room => 8,
            Refusal::NoPair => 9,
            Refusal::NoKey => 10,
            Refusal::Spent => 11,
            Refusal::Name => 12,
            Refusal::Term => 13,
            Refusal::Twin => 14,
            Refusal::Full => 15,
            Refusal::KeyRec => 19,
        }
    }
}

// A refusal, by its number and the place where reading failed, or a call that is done, by the pair and the serial of its key. All else is 0.
pub fn bare(number: u64, pair: u64, serial: u64, place: u64) -> Answer
    ensures { result ≡ bare_as number pair serial place }
{
    Answer {
        number,
        length: 0,
        error: 0,
        skew: 0,
        pair,
        serial,
        place,
    }
}

// In two's complement.
#[tactic(auto, unfolding(crate::specs::Words::twos_complement))]
pub fn skew_word(skew: i64) -> u64
    ensures { result ≡ twos_complement skew }
{
    skew.cast_unsigned()
}
