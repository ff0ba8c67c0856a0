// Reads a record from standard input and writes a line for each predicate, its number and `met` or `broken` with the pair;
// or the line of the question that refused the record.
#![tactic(auto)]

use lines::input;
use record::layout;
use std::{fmt, io};

// The line of one predicate, by its judgment's number: `judge_all` gives those that C is given.
#[derive(Drop)]
struct Line {
    predicate: usize,
    judgment: u64,
}

impl Line {
    // The pair that breaks it.
    fn pair(&self) -> Option<(u64, u64)> {
        let pair = (
            self.judgment / packed::PLACES % packed::PLACES,
            self.judgment % packed::PLACES,
        );
        (self.judgment != 0).then_some(pair)
    }
}

impl fmt::Display for Line {
    fn fmt<W: fmt::Write>(&self, f: &mut fmt::Formatter<W>) -> fmt::Result {
        let predicate = self.predicate;
        match self.pair() {
            None => write!(f, "{predicate} met"),
            Some((first, second)) => write!(f, "{predicate} broken {first} {second}"),
        }
    }
}

fn write_judgments(rt: &impl Print, judgments: &[u64; 13]) -> io::Result<()> {
    for (k, &judgment) in judgments.iter().enumerate() {
        let predicate = k + 1;
        println!(rt;
            "{}",
            Line {
                predicate,
                judgment
            }
        )?;
    }
    Ok(())
}

fn main(rt: HostRuntime) -> io::Result<()> {
    // One byte more than the longest record, so that a longer input is refused and not cut.
    let mut input = [0u8; layout::LONGEST + 1];
    let length = input::read_full(&mut rt.reader(), &mut input)?;
    let mut work = [0u64; layout::WORK];
    let all = judge::judge_all(&input[..length], &mut work);
    if all.reading.is_err() {
        return println!(rt; "{}", lines::Line(all.reading));
    }
    write_judgments(&rt, &all.judgments)
}
