// A line of the replay script (docs/SCRIPT.md), read into one command, whose octets stand in an arena. What a line means is tested against the second reader and
// not proved: the contracts say that reading a line is safe and ends.
#![tactic(auto)]

use model::{Algorithm, Span, Verdicts};
use std::mem;

// ── Commands ────────────────────────────────────────────────────────────────────────────────────────────────────────

// The calls on the table.
#[derive(Clone, Copy)]
pub enum TableCall<'a> {
    New {
        time: u64,
    },
    Enrol {
        time: u64,
        suffix: &'a [u8],
        lifetime: u64,
        fresh: u64,
        algorithm: u64,
    },
    Issue {
        time: u64,
        pair: u64,
        algorithm: u64,
    },
    Revoke {
        time: u64,
        pair: u64,
    },
    Close {
        time: u64,
        pair: u64,
    },
    Look {
        message: &'a [u8],
    },
    Message {
        given: Given<'a>,
        room: u64,
    },
    List,
    ListIn {
        room: u64,
    },
    Load {
        listing: &'a [u8],
    },
    Mend {
        room: u64,
        listing: &'a [u8],
    },
}

// A message, and what is handed to the call beside it.
#[derive(Clone, Copy)]
pub struct Given<'a> {
    pub verdicts: Verdicts,
    pub offer: &'a [u8],
    pub message: &'a [u8],
    pub record: &'a [u8],
}

// Several messages in one call: the octets that they stand in, and how many they are.
#[derive(Clone, Copy)]
pub struct Batch<'a> {
    pub room: u64,
    pub octets: &'a [u8],
    pub count: u64,
}

// Another server's reply, and what it answers.
#[derive(Clone, Copy)]
pub struct Compare<'a> {
    pub listing: &'a [u8],
    pub given: Given<'a>,
    pub reply: &'a [u8],
}

// The lines that are done to the resolver.
#[derive(Clone, Copy)]
pub enum ResolverCall<'a> {
    Hold {
        name: &'a [u8],
        algorithm: Algorithm,
        inception: u32,
        expiration: u32,
    },
    Renewal {
        id: u16,
        name: &'a [u8],
        algorithm: Algorithm,
        inception: u32,
        expiration: u32,
        key: &'a [u8],
        room: u64,
    },
    Adoption {
        id: u16,
        room: u64,
    },
    Deletion {
        id: u16,
        room: u64,
    },
    Note {
        id: u16,
    },
    Reply {
        good: bool,
        message: &'a [u8],
    },
    Keys,
}

// A message without a TSIG, and the TSIG's fields but for its MAC.
#[derive(Clone, Copy)]
pub struct Unsigned<'a> {
    pub message: &'a [u8],
    pub name: &'a [u8],
    pub algorithm: &'a [u8],
    pub signed: u64,
    pub fudge: u16,
    pub id: u16,
    pub error: u16,
    pub other: &'a [u8],
    pub room: u64,
}

// The calls on octets alone.
#[derive(Clone, Copy)]
pub enum SigningCall<'a> {
    DigestRequest {
        unsigned: Unsigned<'a>,
    },
    DigestReply {
        unsigned: Unsigned<'a>,
        mac: &'a [u8],
    },
    Finish {
        unsigned: Unsigned<'a>,
        mac: &'a [u8],
    },
    ReadBack {
        message: &'a [u8],
    },
    Remove {
        message: &'a [u8],
        room: u64,
    },
}

#[derive(Clone, Copy)]
pub enum Command<'a> {
    Table(TableCall<'a>),
    Batch(Batch<'a>),
    Compare(Compare<'a>),
    Resolver(ResolverCall<'a>),
    Signing(SigningCall<'a>),
}

// ── Words ───────────────────────────────────────────────────────────────────────────────────────────────────────────

// The words of a line that are left, each behind one space, and the octets of the arena that are free.
#[derive(Drop)]
struct Words<'l, 'a> {
    left: Option<&'l [u8]>,
    arena: &'a mut [u8],
}

// A caller's verdict: `good` or `bad`.
fn verdict(word: &[u8]) -> Option<bool> {
    match word {
        b"good" => Some(true),
        b"bad" => Some(false),
        _ => None,
    }
}

impl<'l, 'a> Words<'l, 'a> {
    fn next(&mut self) -> Option<&'l [u8]> {
        let left = self.left?;
        let Some(end) = left.iter().position(|octet| *octet == b' ') else {
            self.left = None;
            return Some(left);
        };
        self.left = Some(&left[end + 1..]);
        Some(&left[..end])
    }

    fn number(&mut self) -> Option<u64> {
        words::read_number(self.next()?)
    }

    fn verdict(&mut self) -> Option<bool> {
        verdict(self.next()?)
    }

    fn id(&mut self) -> Option<u16> {
        u16::try_from(self.number()?).ok()
    }

    fn time(&mut self) -> Option<u32> {
        u32::try_from(self.number()?).ok()
    }

    // An algorithm that the resolver knows.
    fn algorithm(&mut self) -> Option<Algorithm> {
        Algorithm::try_from(self.number()?).ok()
    }

    // Octets, from hexadecimal; `-` for none. They take the front of the arena that is free.
    fn octets(&mut self) -> Option<&'a [u8]> {
        let word = self.next()?;
        match word {
            b"" => None,
            b"-" => Some(&[]),
            _ => self.unhex(word),
        }
    }

    fn key_name(&mut self) -> Option<&'a [u8]> {
        let name = self.octets()?;
        if name.len() <= 255 { Some(name) } else { None }
    }

    fn unhex(&mut self, word: &[u8]) -> Option<&'a [u8]> {
        let size = word.len().div_ceil(2);
        let (octets, free) = mem::take(&mut self.arena).split_at_mut_checked(size)?;
        self.arena = free;
        words::unhex_into(word, octets)?;
        Some(octets)
    }

    fn is_done(&self) -> bool {
        self.left.is_none()
    }
}

// ── Lines ───────────────────────────────────────────────────────────────────────────────────────────────────────────

impl<'l, 'a> Words<'l, 'a> {
    fn table_call(&mut self, call: &[u8]) -> Option<TableCall<'a>> {
        match call {
            b"new" => Some(TableCall::New {
                time: self.number()?,
            }),
            b"enrol" => Some(TableCall::Enrol {
                time: self.number()?,
                suffix: self.octets()?,
                lifetime: self.number()?,
                fresh: self.number()?,
                algorithm: self.number()?,
            }),
            b"issue" => Some(TableCall::Issue {
                time: self.number()?,
                pair: self.number()?,
                algorithm: self.number()?,
            }),
            b"revoke" => Some(TableCall::Revoke {
                time: self.number()?,
                pair: self.number()?,
            }),
            b"close" => Some(TableCall::Close {
                time: self.number()?,
                pair: self.number()?,
            }),
            b"look" => Some(TableCall::Look {
                message: self.octets()?,
            }),
            b"message" => self.message(),
            b"list" if self.is_done() => Some(TableCall::List),
            b"list" => Some(TableCall::ListIn {
                room: self.number()?,
            }),
            b"load" => Some(TableCall::Load {
                listing: self.octets()?,
            }),
            b"mend" => Some(TableCall::Mend {
                room: self.number()?,
                listing: self.octets()?,
            }),
            _ => None,
        }
    }

    // Without a keying verdict and a record the one is bad and the other no octets.
    fn message(&mut self) -> Option<TableCall<'a>> {
        let now = self.number()?;
        let good = self.verdict()?;
        let offer = self.octets()?;
        let room = self.number()?;
        let message = self.octets()?;
        let mut fits = false;
        let mut record: &'a [u8] = &[];
        if !self.is_done() {
            fits = self.verdict()?;
            record = self.octets()?;
        }
        let verdicts = Verdicts { now, good, fits };
        let given = Given {
            verdicts,
            offer,
            message,
            record,
        };
        Some(TableCall::Message { given, room })
    }

    fn compare(&mut self) -> Option<Compare<'a>> {
        let listing = self.octets()?;
        let now = self.number()?;
        let good = self.verdict()?;
        let offer = self.octets()?;
        let message = self.octets()?;
        let fits = self.verdict()?;
        let record = self.octets()?;
        let reply = self.octets()?;
        let verdicts = Verdicts { now, good, fits };
        let given = Given {
            verdicts,
            offer,
            message,
            record,
        };
        Some(Compare {
            listing,
            given,
            reply,
        })
    }

    fn resolver_call(&mut self, call: &[u8]) -> Option<ResolverCall<'a>> {
        match call {
            b"hold" => Some(ResolverCall::Hold {
                name: self.key_name()?,
                algorithm: self.algorithm()?,
                inception: self.time()?,
                expiration: self.time()?,
            }),
            b"renewal" => Some(ResolverCall::Renewal {
                id: self.id()?,
                name: self.octets()?,
                algorithm: self.algorithm()?,
                inception: self.time()?,
                expiration: self.time()?,
                key: self.octets()?,
                room: self.number()?,
            }),
            b"adoption" => Some(ResolverCall::Adoption {
                id: self.id()?,
                room: self.number()?,
            }),
            b"deletion" => Some(ResolverCall::Deletion {
                id: self.id()?,
                room: self.number()?,
            }),
            b"note" => Some(ResolverCall::Note { id: self.id()? }),
            b"reply" => Some(ResolverCall::Reply {
                good: self.verdict()?,
                message: self.octets()?,
            }),
            b"keys" => Some(ResolverCall::Keys),
            _ => None,
        }
    }

    fn unsigned(&mut self) -> Option<Unsigned<'a>> {
        Some(Unsigned {
            message: self.octets()?,
            name: self.octets()?,
            algorithm: self.octets()?,
            signed: self.number()?,
            fudge: self.id()?,
            id: self.id()?,
            error: self.id()?,
            other: self.octets()?,
            room: self.number()?,
        })
    }

    fn signing_call(&mut self, call: &[u8]) -> Option<SigningCall<'a>> {
        match call {
            b"digest-request" => Some(SigningCall::DigestRequest {
                unsigned: self.unsigned()?,
            }),
            b"digest-reply" => Some(SigningCall::DigestReply {
                unsigned: self.unsigned()?,
                mac: self.octets()?,
            }),
            b"finish" => Some(SigningCall::Finish {
                unsigned: self.unsigned()?,
                mac: self.octets()?,
            }),
            b"read-back" => Some(SigningCall::ReadBack {
                message: self.octets()?,
            }),
            b"remove" => Some(SigningCall::Remove {
                message: self.octets()?,
                room: self.number()?,
            }),
            _ => None,
        }
    }

    // How many items the words that are left say, nine words an item. Only as many words are kept as there is room for.
    fn items(&mut self, items: &mut [u64]) -> Option<u64> {
        let Some(left) = self.left.take() else {
            return Some(0);
        };
        let mut count = 0;
        for (i, word) in left.split(|octet| *octet == b' ').enumerate() {
            let x = match i % 9 {
                1 | 6 => u64::from(verdict(word)?),
                _ => words::read_number(word)?,
            };
            if let Some(item) = items.get_mut(i) {
                *item = x;
            }
            count = i + 1;
        }
        if count % 9 == 0 {
            Some((count / 9) as u64)
        } else {
            None
        }
    }

    fn batch(&mut self, items: &mut [u64]) -> Option<Batch<'a>> {
        Some(Batch {
            room: self.number()?,
            octets: self.octets()?,
            count: self.items(items)?,
        })
    }

    // A line that one group of calls does not read goes to the next one. Where the line is ill no other reads it, since no two calls have the same name.
    fn command(&mut self, items: &mut [u64]) -> Option<Command<'a>> {
        let call = self.next()?;
        match call {
            b"batch" => return Some(Command::Batch(self.batch(items)?)),
            b"compare" => return Some(Command::Compare(self.compare()?)),
            _ => {}
        }
        if let Some(call) = self.table_call(call) {
            return Some(Command::Table(call));
        }
        if let Some(call) = self.resolver_call(call) {
            return Some(Command::Resolver(call));
        }
        Some(Command::Signing(self.signing_call(call)?))
    }
}

// A line of at most 200,000 octets as a command, if it reads; its octets stand in the arena, which 100,000 are enough for, and the first words of a batch's items in
// `items`.
pub fn read_line<'a>(line: &[u8], arena: &'a mut [u8], items: &mut [u64]) -> Option<Command<'a>> {
    if line.len() > 200000 {
        return None;
    }
    let mut words = Words {
        left: Some(line),
        arena,
    };
    let command = words.command(items)?;
    if words.is_done() { Some(command) } else { None }
}

// ── Spans ───────────────────────────────────────────────────────────────────────────────────────────────────────────

// The octets of a span; none where it does not lie inside.
pub fn spanned(s: &[u8], span: Span) -> &[u8] {
    match span.from.checked_add(span.size) {
        Some(to) => s.get(span.from..to).unwrap_or(&[]),
        None => &[],
    }
}
