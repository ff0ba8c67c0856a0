// Reads a record from standard input and says whether it passes: `passed`, or `refused` with the question's number and place.
#![tactic(auto)]

use lines::{Line, input};
use record::layout;
use std::io;

fn main(rt: HostRuntime) -> io::Result<()> {
    // One byte more than the longest record, so that a longer input is refused and not cut.
    let mut input = [0u8; layout::LONGEST + 1];
    let length = input::read_full(&mut rt.reader(), &mut input)?;
    let mut work = [0u64; layout::WORK];
    let reading = reader::read(&input[..length], &mut work);
    println!(rt; "{}", Line(reading))
}
