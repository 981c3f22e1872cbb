// Replays a script of calls: each line of standard input is done to the table, to the resolver, or to octets alone, and its result printed (docs/SCRIPT.md), in
// constant memory. What is printed is tested, not proved. The first failure of reading or writing ends the run: a line that was cut off is not done, nothing
// more is printed, and standard error says what failed.
#![tactic(auto)]

mod batch_lines;
mod compare_lines;
mod listing_lines;
mod print;
mod resolver_lines;
mod signing_lines;
mod table_lines;

use model::Resolver;
use print::{Text, front};
use script::Command;
use std::fmt::Write;
use std::io::Read;
use std::{fmt, io};
use table_lines::Table;

// What ends a run before its input does.
#[derive(Drop)]
enum Failure {
    Reading(io::Error),
    Writing(io::Error),
}

// What the lines are done to, but those that are done to octets alone.
#[derive(Drop)]
struct State {
    table: Table,
    resolver: Resolver,
}

impl State {
    // Does a command and prints its result. The items are a batch's.
    fn perform(
        &mut self,
        command: Command,
        items: &[u64; 576],
        out: &mut [u8],
        text: &mut Text,
    ) -> fmt::Result {
        match command {
            Command::Table(call) => table_lines::table_line(&mut self.table, call, out, text),
            Command::Batch(batch) => {
                batch_lines::batch_line(&mut self.table, batch, items, out, text)
            }
            Command::Compare(compare) => compare_lines::compare_line(compare, text),
            Command::Resolver(call) => {
                resolver_lines::resolver_line(&mut self.resolver, call, out, text)
            }
            Command::Signing(call) => signing_lines::signing_line(call, out, text),
        }
    }

    // Does a line, whose number is for where it does not read.
    fn do_line(
        &mut self,
        line: &Text,
        number: u64,
        arena: &mut [u8],
        out: &mut [u8],
        text: &mut Text,
    ) -> fmt::Result {
        let mut items = [0u64; 576];
        match script::read_line(line.octets(), arena, &mut items[..]) {
            Some(command) => self.perform(command, &items, out, text),
            None => writeln!(text, "bad line {number}"),
        }
    }
}

// The run so far: the line that is being read, and its number; and what a line is done in: the octets that it says, what its call writes, and its result.
#[derive(Drop)]
struct Run<'a> {
    state: State,
    line: Text<'a>,
    number: u64,
    arena: &'a mut [u8],
    out: &'a mut [u8],
    text: Text<'a>,
}

impl<'a> Run<'a> {
    fn new(
        line: &'a mut [u8],
        arena: &'a mut [u8],
        out: &'a mut [u8],
        text: &'a mut [u8],
    ) -> Run<'a> {
        let state = State {
            table: Table::new(),
            resolver: resolver_lines::newcomer(),
        };
        let line = Text::new(line);
        let text = Text::new(text);
        Run {
            state,
            line,
            number: 1,
            arena,
            out,
            text,
        }
    }

    // Does the line and prints its result.
    fn end_line(&mut self, rt: &impl Print) -> Result<(), Failure> {
        let number = self.number;
        self.text.clear();
        let _ = self
            .state
            .do_line(&self.line, number, self.arena, self.out, &mut self.text);
        rt.write_all(self.text.octets()).map_err(Failure::Writing)?;
        self.line.clear();
        self.number = number.saturating_add(1);
        Ok(())
    }

    // Takes what was read, and does each line that ends in it. Of a line as many octets are kept as there is room for: 200,001, which are too many.
    fn feed(&mut self, rt: &impl Print, input: &[u8]) -> Result<(), Failure> {
        for piece in input.split_inclusive(|octet| *octet == b'\n') {
            match piece.strip_suffix(b"\n") {
                Some(end) => {
                    self.line.push(end);
                    self.end_line(rt)?;
                }
                None => self.line.push(piece),
            }
        }
        Ok(())
    }

    // At the end of the input: a last line without its newline is done too.
    fn finish(&mut self, rt: &impl Print) -> Result<(), Failure> {
        if self.line.octets().is_empty() {
            return Ok(());
        }
        self.end_line(rt)
    }
}

// Reads until the input ends. A proved loop has to end, and nothing says that the input does: so the loop counts its turns, to a number that no run uses up.
fn run_all<R: Print, I: Read>(
    rt: &R,
    stdin: &mut I,
    input: &mut [u8],
    run: &mut Run,
) -> Result<(), Failure> {
    for _ in 0..u64::MAX {
        let size = stdin.read(input).map_err(Failure::Reading)?;
        if size == 0 {
            return run.finish(rt);
        }
        run.feed(rt, front(input, size))?;
    }
    Ok(())
}

// Says on standard error what failed and why: in the system's words, without the number that std puts behind them.
fn say(rt: &(impl Eprint + Alloc), failure: Failure) -> io::Result<()> {
    let (what, error) = match failure {
        Failure::Reading(error) => ("reading standard input", error),
        Failure::Writing(error) => ("writing standard output", error),
    };
    let said = error.to_string(rt.alloc())?;
    let words = said.as_str();
    let why = match words.split_once(" (os error ") {
        Some((before, _)) => before,
        None => words,
    };
    eprintln!(rt; "replay: {what}: {why}")
}

fn main(rt: HostRuntime) {
    let mut input = [0u8; 16384];
    let mut line = [0u8; 200001];
    let mut arena = [0u8; 100000];
    let mut out = [0u8; 100000];
    // The longest result is a batch's: the digits of 100,000 octets, and in each of 64 lines at most 150 octets more.
    let mut text = [0u8; 210000];
    let mut run = Run::new(&mut line, &mut arena, &mut out, &mut text);
    if let Err(failure) = run_all(&rt, &mut rt.stdin(), &mut input, &mut run) {
        let _ = say(&rt, failure);
    }
}
