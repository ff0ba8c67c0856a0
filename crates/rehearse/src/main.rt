// Rehearses a script: standard input has one byte, the sites, then 132 bytes of openings, and then the script. Writes the record, or `refused` with the question's number.
#![tactic(auto)]

use lines::input;
use record::layout;
use std::io;

// Room for the record and for the answers.
#[derive(Drop)]
struct Buffers {
    record: [u8; layout::LONGEST],
    answers: [u8; 32768],
}

// The record's bytes are written as they are, with nothing after them.
fn rehearse(
    rt: &impl Print,
    sites: usize,
    openings: &[u8],
    script: &[u8],
    buffers: &mut Buffers,
) -> io::Result<()> {
    let Buffers { record, answers } = buffers;
    match rehearsal::rehearse(sites, openings, script, record, answers) {
        Ok(rehearsed) => rt.write_all(&record[..rehearsed.length]),
        Err(refusal) => println!(rt; "refused {}", refusal.number()),
    }
}

// What stands behind the sites: openings, those that are missing being 0, and a script.
fn opened(rt: &impl Print, sites: usize, rest: &[u8], buffers: &mut Buffers) -> io::Result<()> {
    let (given, script) = rest.split_at(rest.len().min(132));
    let mut openings = [0u8; 132];
    openings[..given.len()].copy_from_slice(given);
    rehearse(rt, sites, &openings, script, buffers)
}

// An empty input has 0 sites.
fn answer(rt: &impl Print, input: &[u8], buffers: &mut Buffers) -> io::Result<()> {
    match input {
        [] => opened(rt, 0, input, buffers),
        [sites, rest @ ..] => opened(rt, *sites as usize, rest, buffers),
    }
}

fn main(rt: HostRuntime) -> io::Result<()> {
    // One byte more than the sites, the openings and the longest script, so that a longer input is refused and not cut.
    let mut input = [0u8; 32902];
    let length = input::read_full(&mut rt.reader(), &mut input)?;
    let mut buffers = Buffers {
        record: [0; layout::LONGEST],
        answers: [0; 32768],
    };
    answer(&rt, &input[..length], &mut buffers)
}
