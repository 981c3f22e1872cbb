// The script's lines that list the table, load one and mend one (02, CR 7).
use crate::print::{Text, front, front_mut};
use crate::table_lines::Table;
use listing::ListError;
use std::fmt;
use std::fmt::Write;

// Lists the table, where it fits the lent octets.
pub fn list(table: &Table, lent: &mut [u8], text: &mut Text) -> fmt::Result {
    match listing::list(&table.words, &table.suffixes, lent) {
        Ok(size) => {
            text.push(front(lent, size));
            Ok(())
        }
        Err(ListError::Broken) => writeln!(text, "1 0"),
        Err(ListError::Long) => writeln!(text, "8 0"),
    }
}

pub fn load(table: &mut Table, listing: &[u8], text: &mut Text) -> fmt::Result {
    let end = loading::load(listing, &mut table.words, &mut table.suffixes);
    writeln!(text, "{} {}", end.number, end.line)
}

// At most 4,096 dropped lines are named, each with its reason.
pub fn mend(table: &mut Table, room: u64, listing: &[u8], text: &mut Text) -> fmt::Result {
    let mut named = [0u64; 8192];
    let lent = front_mut(&mut named[..], room.min(4096) as usize * 2);
    let end = loading::mend(listing, &mut table.words, &mut table.suffixes, lent);
    writeln!(text, "{} {} {}", end.number, end.line, end.dropped)?;
    for [line, reason] in named.as_chunks::<2>().0.iter().take(end.dropped) {
        writeln!(text, "{line} {reason}")?;
    }
    Ok(())
}
