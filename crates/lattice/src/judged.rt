// The judge asked about the eight records.
ghost use Rattle.std.specs.Prelude.{◌≡◌, None, IfSome};
ghost use Rattle.consistency.specs.Separating.{separating_bytes, tells, separator};
ghost use Rattle.judge.specs.Covers.{answer};
ghost use Rattle.lattice.specs.Answers.{met_by, broken_by};

use super::model::Model;
use super::records::{self, Record};
use judge::Judgment;
use record::layout;

// The judge's answer about model m of a record. It is asked of any number, as the judge is.
pub fn of_record(k: Record, m: usize) -> Judgment
    ensures { result ≡ answer (separating_bytes k.number) m }
{
    let mut rec = [0u8; records::LENGTH];
    k.write(&mut rec);
    let mut work = [0u64; layout::WORK];
    judge::judge_model(m, &rec, &mut work)
}

fn is_met(answer: Judgment) -> bool
    ensures { result ≡ met_by answer }
{
    matches!(answer, Ok(None))
}

fn is_broken(answer: Judgment) -> bool
    ensures { result ≡ broken_by answer }
{
    matches!(answer, Ok(Some(_)))
}

// Whether the record meets model i and breaks model j.
fn tells_apart(k: Record, i: Model, j: Model) -> bool
    ensures { result ≡ tells k.number i.number j.number }
{
    is_met(of_record(k, i.number)) && is_broken(of_record(k, j.number))
}

// The first record that does.
pub fn record_for(i: Model, j: Model) -> Option<Record>
    ensures found { IfSome result (λ k. k.number ≡ separator i.number j.number) }
    ensures none { result ≡ None → separator i.number j.number ≡ 9 }
{
    for number in 1..9 {
        let k = Record { number };
        if tells_apart(k, i, j) {
            return Some(k);
        }
    }
    None
}
