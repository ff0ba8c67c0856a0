// What happened where a predicate breaks: the events that lead from the first of its pair to the second.
#![tactic(auto)]

pub mod packing;
pub mod telling;

ghost use Rattle.std.specs.Prelude.{◌≡◌, ◌≤◌, length};
ghost use Rattle.record.specs.Layout.{edition_of, work_words};
ghost use Rattle.judge.specs.Judgments.{predicate_judgment_of};
ghost use Rattle.explain.specs.Explanations.{entries_asked, explained_record, explanation_of, entries_after_it, work_after_it};
ghost use Rattle.explain.specs.Means.{TellsWhy};
ghost use Rattle.explain.specs.declared.Unexplained.TheVariants as why;
ghost use Rattle.judge.specs.declared.Unjudged.TheVariants.{Refused};

use judge::{Unjudged, lists};
use record::{Refusal, layout};

// What refused an explaining call: what refuses a judging call, too few entries, or a predicate that is met.
#[derive(Clone, Copy)]
pub enum Unexplained {
    Unjudged(Unjudged),
    FewEntries,
    NoBreak,
}

impl From<Unjudged> for Unexplained {
    ghost from_gives = { λ r e. e ≡ why.Unjudged r };

    fn from(r: Unjudged) -> Unexplained {
        Unexplained::Unjudged(r)
    }
}

impl From<Refusal> for Unexplained {
    ghost from_gives = { λ r e. e ≡ why.Unjudged (Refused r) };

    fn from(r: Refusal) -> Unexplained {
        Unexplained::Unjudged(Unjudged::Refused(r))
    }
}

// How many entries were written.
pub type Explanation = Result<usize, Unexplained>;

// Questions 3 to 10, and then 42.
fn explain_record(number: usize, s: &[u8], work: &mut [u64], entries: &mut [u16]) -> Explanation
    requires { (work_words ≤ length work.old) × (1 ≤ number) × (number ≤ 13) × (entries_asked ≤ length entries.old) }
    ensures value { result ≡ explained_record (edition_of s.now) number s.now }
    ensures entries_after { entries.new ≡ entries_after_it result number s.now entries.old }
    ensures work_after { work.new ≡ work_after_it result s.now work.old }
{
    reader::ask(s, work)?;
    telling::tell(lists::by_number(number), s, work, entries)
}

// Tells what happened where a predicate, by its number, breaks.
pub fn explain(number: usize, s: &[u8], work: &mut [u64], entries: &mut [u16]) -> Explanation
    ensures value { result ≡ explanation_of (length work.old) (length entries.old) number s.now }
    ensures entries_after { entries.new ≡ entries_after_it result number s.now entries.old }
    ensures work_after { work.new ≡ work_after_it result s.now work.old }
    ensures tells_why { TellsWhy (length work.old) number s.now entries.old (predicate_judgment_of (length work.old) number s.now) result entries.new }
{
    judge::admit(work.len(), number)?;
    if entries.len() < layout::EVENTS {
        return Err(Unexplained::FewEntries);
    }
    explain_record(number, s, work, entries)
}
