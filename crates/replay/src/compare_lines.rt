// The script's line that judges another server's reply (02, CR 12).
use crate::print::Text;
use script::Compare;
use std::fmt;
use std::fmt::Write;

// NUMBER PLACE, on a table of the line's own: the run's stays.
pub fn compare_line(compare: Compare, text: &mut Text) -> fmt::Result {
    let mut words = [0u64; 1091];
    let mut suffixes = [0u8; 8192];
    let mut reply = [0u8; 65535];
    let given = compare.given;
    let verdict = reviewing::review(
        compare.listing,
        given.verdicts,
        given.message,
        given.offer,
        given.record,
        compare.reply,
        &mut words,
        &mut suffixes,
        &mut reply,
    );
    writeln!(text, "{} {}", verdict.number, verdict.place)
}
