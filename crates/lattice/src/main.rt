// Which model covers which: a line for each ordered pair of different models. Where the second does not follow from the first, the line has a record that meets
// the first and breaks the second: built by the writer, and judged. With an argument K, 1 to 8, record K itself.
#![tactic(auto)]

mod judged;
mod model;
mod records;
mod table;

use model::Model;
use records::Record;
use std::env::FillError;
use std::io;
use std::rt::Env;
use table::Pairs;

// With the first broken predicate and its pair, as in a line of `verdict`.
fn not_covered(rt: &impl Print, i: Model, j: Model) -> io::Result<()> {
    let Some(k) = judged::record_for(i, j) else {
        return println!(rt; "NOT SHOWN: no record meets {i} and breaks {j}");
    };
    print!(rt; "{i} does not cover {j}: record {}, ", k.number)?;
    if let Ok(Some(broken)) = judged::of_record(k, j.number) {
        print!(rt;
            "{} broken {} {}",
            broken.predicate, broken.first, broken.second
        )?;
    }
    println!(rt)
}

#[derive(Drop)]
struct Lattice {
    given: Pairs,
    following: Pairs,
}

impl Lattice {
    // The first model that i gives and from which j follows.
    fn between(&self, i: Model, j: Model) -> Option<Model> {
        for number in 1..14 {
            let m = Model { number };
            if self.given.has(i.number, m.number) && self.following.has(m.number, j.number) {
                return Some(m);
            }
        }
        None
    }

    fn covered(&self, rt: &impl Print, i: Model, j: Model) -> io::Result<()> {
        print!(rt; "{i} covers {j}")?;
        if !self.given.has(i.number, j.number)
            && let Some(m) = self.between(i, j)
        {
            print!(rt; ", by {m}")?;
        }
        println!(rt)
    }

    fn pair(&self, rt: &impl Print, i: Model, j: Model) -> io::Result<()> {
        if self.following.has(i.number, j.number) {
            self.covered(rt, i, j)
        } else {
            not_covered(rt, i, j)
        }
    }

    fn pairs(&self, rt: &impl Print) -> io::Result<()> {
        for i in 1..14 {
            for j in 1..14 {
                if i != j {
                    self.pair(rt, Model { number: i }, Model { number: j })?;
                }
            }
        }
        Ok(())
    }
}

fn pairs(rt: &impl Print) -> io::Result<()> {
    let lattice = Lattice {
        given: Pairs::given(),
        following: Pairs::following(),
    };
    lattice.pairs(rt)
}

fn usage(rt: &impl Eprint) -> io::Result<()> {
    eprintln!(rt;
        "lattice writes which model covers which; lattice K, with K from 1 to 8, writes record K"
    )
}

// The bytes of the record that an argument names.
fn one_record(rt: &(impl Print + Eprint), argument: &[u8]) -> io::Result<()> {
    let [digit @ b'1'..=b'8'] = argument else {
        return usage(rt);
    };
    let record = Record {
        number: (*digit - b'0') as usize,
    };
    let mut rec = [0u8; records::LENGTH];
    record.write(&mut rec);
    rt.write_all(&rec)
}

fn main(rt: HostRuntime) -> io::Result<()> {
    let mut argument = [0u8; 1];
    let length = match rt.arg(1, &mut argument) {
        Ok(length) => length,
        Err(FillError::NotPresent) => return pairs(&rt),
        Err(FillError::TooLong) => return usage(&rt),
    };
    match rt.arg(2, &mut [0u8; 1]) {
        Err(FillError::NotPresent) => one_record(&rt, &argument[..length]),
        _ => usage(&rt),
    }
}
