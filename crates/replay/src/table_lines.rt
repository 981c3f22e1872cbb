// The script's lines that are done to the table.
use crate::listing_lines;
use crate::print::{Text, answer, front, front_mut};
use model::Answer;
use script::{Given, TableCall};
use std::fmt;

// The table, in the words and octets that it lies in.
#[derive(Drop)]
pub struct Table {
    pub words: [u64; 1091],
    pub suffixes: [u8; 8192],
}

// A line lends at most so many octets: for a reply, a request or a listing, and for a batch's replies or a signing call.
pub const MOST_OF_MESSAGE: u64 = 65535;

pub const MOST_OF_OCTETS: u64 = 100000;

// The front of out that a line lends: ROOM octets, `most` at most.
pub fn lent(out: &mut [u8], room: u64, most: u64) -> &mut [u8] {
    front_mut(out, room.min(most) as usize)
}

impl Table {
    // The empty table, at clock 0.
    pub fn new() -> Table {
        let mut words = [0u64; 1091];
        let suffixes = [0u8; 8192];
        operator::new_table(&mut words, &suffixes, 0);
        Table { words, suffixes }
    }

    fn message(&mut self, given: Given, reply: &mut [u8]) -> Answer {
        server::message(
            &mut self.words,
            &self.suffixes,
            given.verdicts,
            given.message,
            given.offer,
            given.record,
            reply,
        )
    }
}

// Does a call to the table and prints what it answers. What a message call writes stands at the front of out.
pub fn table_line(
    table: &mut Table,
    call: TableCall,
    out: &mut [u8],
    text: &mut Text,
) -> fmt::Result {
    let said = match call {
        TableCall::Message { given, room } => {
            let said = table.message(given, lent(out, room, MOST_OF_MESSAGE));
            return answer(text, said, front(out, said.length as usize));
        }
        // A listing has less than 40,000 octets.
        TableCall::List => return listing_lines::list(table, out, text),
        TableCall::ListIn { room } => {
            return listing_lines::list(table, lent(out, room, MOST_OF_MESSAGE), text);
        }
        TableCall::Load { listing } => return listing_lines::load(table, listing, text),
        TableCall::Mend { room, listing } => {
            return listing_lines::mend(table, room, listing, text);
        }
        TableCall::New { time } => operator::new_table(&mut table.words, &table.suffixes, time),
        TableCall::Enrol {
            time,
            suffix,
            lifetime,
            fresh,
            algorithm,
        } => operator::enrol(
            &mut table.words,
            &mut table.suffixes,
            time,
            suffix,
            lifetime,
            fresh,
            algorithm,
        ),
        TableCall::Issue {
            time,
            pair,
            algorithm,
        } => operator::issue(&mut table.words, &table.suffixes, time, pair, algorithm),
        TableCall::Revoke { time, pair } => {
            operator::revoke(&mut table.words, &table.suffixes, time, pair)
        }
        TableCall::Close { time, pair } => operator::close(
            &mut table.words,
            &mut table.suffixes,
            time,
            pair,
        ),
        TableCall::Look { message } => looking::look(&table.words, &table.suffixes, message),
    };
    answer(text, said, b"")
}
