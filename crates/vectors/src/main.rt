// Reads each file that an argument names, over work slices one word too short, just long enough, and six words longer, and
// writes the reading and what the slice holds afterwards.
#![tactic(auto)]

use lines::{Line, input};
use record::layout;
use std::env::FillError;
use std::rt::{Env, Files};
use std::{fs, io, str};

// What stands in a work slice before it is lent.
fn noise(i: usize) -> u64 {
    ((i % 4096) as u64) * 0x9E37_79B9 + 1
}

fn fill(work: &mut [u64]) {
    for (i, word) in work.iter_mut().enumerate() {
        *word = noise(i);
    }
}

// The words mixed into one number, each at its own turn.
fn digest(work: &[u64]) -> u64 {
    work.iter()
        .fold(0, |mixed, word| mixed.rotate_left(1) ^ word)
}

// Whether the words from that place on are as they were lent.
fn is_kept(work: &[u64], from: usize) -> bool {
    work.iter()
        .enumerate()
        .skip(from)
        .all(|(i, word)| *word == noise(i))
}

fn report(rt: &impl Print, s: &[u8], work: &mut [u64]) -> io::Result<()> {
    fill(work);
    let reading = reader::read(s, work);
    println!(rt; "  {}: {}", work.len(), Line(reading))?;
    print!(rt; "    digest {:016x}", digest(work))?;
    if is_kept(work, 0) {
        println!(rt; ", all kept")
    } else if is_kept(work, layout::WORK) {
        println!(rt; ", words from {} on kept", layout::WORK)
    } else {
        println!(rt; ", later words changed")
    }
}

// The reports on one input.
fn reports(rt: &impl Print, s: &[u8]) -> io::Result<()> {
    report(rt, s, &mut [0; layout::WORK - 1])?;
    report(rt, s, &mut [0; layout::WORK])?;
    report(rt, s, &mut [0; layout::WORK + 6])
}

// A file that does not open has a line on standard error in place of its reports, and so has a path that is not text.
fn vector(rt: &(impl Files + Print + Eprint), path: &[u8]) -> io::Result<()> {
    rt.write_all(path)?;
    println!(rt)?;
    let Ok(path) = str::from_utf8(path) else {
        return eprintln!(rt; "the path is not UTF-8");
    };
    let mut file = match fs::open(rt, path) {
        Ok(file) => file,
        Err(error) => return eprintln!(rt; "{path}: {error}"),
    };
    // Two blocks more than the longest record, so that a longer input is refused and not cut.
    let mut input = [0u8; layout::LONGEST + 2 * 512];
    let length = input::read_full(&mut file, &mut input)?;
    reports(rt, &input[..length])
}

// The longest path that can be opened, in bytes.
const LONGEST_PATH: usize = 4095;

fn main(rt: HostRuntime) -> io::Result<()> {
    // Argument 0 is the program's name. By number: the library's iterator of arguments needs the heap.
    for i in 1..usize::MAX {
        let mut path = [0u8; LONGEST_PATH];
        let length = match rt.arg(i, &mut path) {
            Ok(length) => length,
            Err(FillError::NotPresent) => return Ok(()),
            Err(FillError::TooLong) => 0,
        };
        vector(&rt, &path[..length])?;
    }
    Ok(())
}
