// The reader of grain position records: questions 1 and 3 to 10, and the words of its events.
#![tactic(auto)]

pub mod blocks;
pub mod framed;
pub mod header;
pub mod positions;
pub mod sets;
pub mod slots;
pub mod words;

ghost use Rattle.std.specs.Prelude.{◌≡◌, ◌≤◌, length, Err};
ghost use Rattle.std.specs.Result.{MatchResult};
ghost use Rattle.record.specs.Layout.{edition_of, work_words};
ghost use Rattle.record.specs.Questions.{number_of, questions, reading};
ghost use Rattle.record.specs.Answers.{BytesRight, Tells};
ghost use Rattle.record.specs.BeforeHarvest.{KeepsReading};
ghost use Rattle.record.specs.Words.{work_after};

use framed::Framed;
use record::{Reading, Refusal, layout};

// Questions 3 to 8, asked of the bytes alone.
fn ask_bytes(s: &[u8]) -> Result<Framed, Refusal>
    ensures { MatchResult result (λ f. (f.bytes.now ≡ s.now) × BytesRight (edition_of s.now) s.now) (λ r. Tells (edition_of s.now) s.now (Err r)) }
{
    let framed = Framed::new(s)?;
    if let Some(slot) = framed.wrong_slot() {
        return Err(Refusal::WrongSlot(slot));
    }
    if let Some(event) = framed.wrong_position() {
        return Err(Refusal::WrongPosition(event));
    }
    Ok(framed)
}

// Questions 3 to 10, over a work slice that is long enough.
pub fn ask(s: &[u8], work: &mut [u64]) -> Reading
    requires { work_words ≤ length work.old }
    ensures value { result ≡ questions (edition_of s.now) s.now }
    ensures work_after { work.new ≡ work_after (edition_of s.now) (number_of result) s.now work.old }
{
    match ask_bytes(s) {
        Ok(framed) => framed.ask_sets(work),
        Err(refusal) => {
            work[..layout::WORK].fill(0);
            Err(refusal)
        }
    }
}

// Question 1, then 3 to 10.
pub fn read(s: &[u8], work: &mut [u64]) -> Reading
    ensures value { result ≡ reading (edition_of s.now) (length work.old) s.now }
    ensures work_after { work.new ≡ work_after (edition_of s.now) (number_of result) s.now work.old }
    ensures keeps_reading { KeepsReading (length work.old) s.now result }
{
    if work.len() < layout::WORK {
        return Err(Refusal::ShortWork);
    }
    ask(s, work)
}
