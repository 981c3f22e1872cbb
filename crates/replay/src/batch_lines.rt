// The script's line that is several messages to the table in one call.
use crate::print::{Text, answer};
use crate::table_lines::{MOST_OF_OCTETS, Table, lent};
use model::Answer;
use script::Batch;
use std::fmt;
use std::fmt::Write;

// The answers' lines, each of seven words. The replies stand one after another.
fn answers_told(answers: &[[u64; 7]], replies: &[u8], text: &mut Text) -> fmt::Result {
    let mut left = replies;
    for &[number, length, error, skew, pair, serial, place] in answers {
        let size = left.len().min(length as usize);
        let (reply, others) = left.split_at(size);
        left = others;
        let said = Answer {
            number,
            length,
            error,
            skew: skew.cast_signed(),
            pair,
            serial,
            place,
        };
        answer(text, said, reply)?;
    }
    Ok(())
}

// Does a batch, whose first items stand in `items`, and prints what it answers. The replies stand at the front of out.
pub fn batch_line(
    table: &mut Table,
    batch: Batch,
    items: &[u64; 576],
    out: &mut [u8],
    text: &mut Text,
) -> fmt::Result {
    let mut answers = [0u64; 448];
    let number = batches::batch(
        &mut table.words,
        &table.suffixes,
        batch.count,
        items,
        batch.octets,
        &mut answers,
        lent(out, batch.room, MOST_OF_OCTETS),
    );
    if number != 0 {
        return writeln!(text, "{number} 0");
    }
    writeln!(text, "0 {}", batch.count)?;
    let (answers, _) = answers.as_chunks::<7>();
    let count = answers.len().min(batch.count as usize);
    answers_told(&answers[..count], out, text)
}
