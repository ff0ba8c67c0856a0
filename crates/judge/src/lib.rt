// The judge of thirteen predicates and thirteen models.
#![tactic(auto)]

pub mod lists;
pub mod packing;
pub mod prepared;
pub mod thirteen;

ghost use Rattle.std.specs.Prelude.{◌≡◌, [], ◌∷◌, ◌≤◌, length};
ghost use Rattle.record.specs.Layout.{edition_of, work_words};
ghost use Rattle.record.specs.Questions.{number_of, reading};
ghost use Rattle.record.specs.Words.{work_after};
ghost use Rattle.consistency.specs.Models.{list_of};
ghost use Rattle.judge.specs.declared.Unjudged.TheVariants.{Refused};
ghost use Rattle.judge.specs.Judgments.{admission, judged_list, predicate_judgment_of, model_judgment_of, packed_judgments_of, work_after_judgment};
ghost use Rattle.judge.specs.Means.{ExactOf};
ghost use Rattle.judge.specs.Hosts.{ExactThirteen};
ghost use Rattle.judge.specs.Clocks.{ByClocks};
ghost use Rattle.judge.specs.Kept.{KeepsVerdict, KeepsThirteen};
ghost use Rattle.judge.specs.Covers.{TellsOthers};
ghost use Rattle.judge.specs.Lists.{numbers_of};

use consistency::{Outcome, Predicate};
use prepared::Passed;
use record::{Reading, Refusal, layout};

// What refused a judging call: no number of a predicate or model, or a question asked of the record.
#[derive(Clone, Copy)]
pub enum Unjudged {
    NoSuchNumber,
    Refused(Refusal),
}

impl From<Refusal> for Unjudged {
    ghost from_gives = { λ r e. e ≡ Refused r };

    fn from(r: Refusal) -> Unjudged {
        Unjudged::Refused(r)
    }
}

// The answer of a judging call.
pub type Judgment = Result<Outcome, Unjudged>;

// A record's reading, and the numbers of its thirteen judgments, each the refusal's where it was refused. The C interface lays the numbers over a host's buffer.
#[derive(Clone, Copy)]
pub struct AllJudged {
    pub reading: Reading,
    pub judgments: [u64; 13],
}

// Questions 1 and 2, which every judging call asks first: of a work slice of so many words, and of a predicate's or model's number.
pub fn admit(words: usize, number: usize) -> Result<(), Unjudged>
    ensures { result ≡ admission words number }
{
    if words < layout::WORK {
        return Err(Unjudged::Refused(Refusal::ShortWork));
    }
    if number < 1 || 13 < number {
        return Err(Unjudged::NoSuchNumber);
    }
    Ok(())
}

// Questions 3 to 10, then a list of predicates.
fn judge_list(list: &[Predicate], s: &[u8], work: &mut [u64]) -> Judgment
    requires { work_words ≤ length work.old }
    ensures value { result ≡ judged_list (edition_of s.now) s.now (numbers_of list.now) }
    ensures work_after { work.new ≡ work_after_judgment result s.now work.old }
{
    reader::ask(s, work)?;
    let passed = Passed {
        record: s,
        seen: work,
    };
    Ok(lists::first_broken(list, &passed))
}

// Judges a predicate by its number.
pub fn judge_predicate(number: usize, s: &[u8], work: &mut [u64]) -> Judgment
    ensures value { result ≡ predicate_judgment_of (length work.old) number s.now }
    ensures exact_of { ExactOf (length work.old) number (number ∷ []) s.now result }
    ensures by_clocks { ByClocks (length work.old) number (number ∷ []) s.now result }
    ensures keeps_verdict { KeepsVerdict (length work.old) number (number ∷ []) s.now result }
    ensures work_after { work.new ≡ work_after_judgment result s.now work.old }
{
    admit(work.len(), number)?;
    judge_list(&[lists::by_number(number)], s, work)
}

// Judges a model by its number.
pub fn judge_model(number: usize, s: &[u8], work: &mut [u64]) -> Judgment
    ensures value { result ≡ model_judgment_of (length work.old) number s.now }
    ensures exact_of { ExactOf (length work.old) number (list_of number) s.now result }
    ensures by_clocks { ByClocks (length work.old) number (list_of number) s.now result }
    ensures keeps_verdict { KeepsVerdict (length work.old) number (list_of number) s.now result }
    ensures tells_others { TellsOthers (length work.old) number s.now result }
    ensures work_after { work.new ≡ work_after_judgment result s.now work.old }
{
    admit(work.len(), number)?;
    judge_list(lists::of_model(number), s, work)
}

// Reads a record once and judges all thirteen predicates.
pub fn judge_all(s: &[u8], work: &mut [u64]) -> AllJudged
    ensures reading_value { result.reading ≡ reading (edition_of s.now) (length work.old) s.now }
    ensures judgments_value { result.judgments ≡ packed_judgments_of (length work.old) s.now }
    ensures exact_thirteen { ExactThirteen (length work.old) s.now result.judgments }
    ensures work_after { work.new ≡ work_after (edition_of s.now) (number_of result.reading) s.now work.old }
    ensures keeps_thirteen { KeepsThirteen (length work.old) s.now result.judgments }
{
    let reading = reader::read(s, work);
    let judgments = match reading {
        Ok(()) => thirteen::verdicts(&Passed {
            record: s,
            seen: work,
        }),
        Err(refusal) => [packing::pack(Err(refusal.into())); 13],
    };
    AllJudged { reading, judgments }
}
