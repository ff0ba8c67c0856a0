// What refuses a rehearsal: questions 20 to 23 and 40, in that order.
ghost use Rattle.std.specs.Prelude.{◌≡◌, List, ℕ, length};
ghost use Rattle.store.specs.Rehearsal.{rehearsal_refusal, number_in};

use record::{layout, openings};
use store::Unrehearsed;

// Of a rehearsal at n sites, by its openings and by the lengths of the script and of both buffers.
pub fn rehearsal_refused(
    n: usize,
    opened: &[u8],
    script: usize,
    rec: usize,
    answers: usize,
) -> Result<(), Unrehearsed>
    ensures { (s t u : List ℕ) → length s ≡ script → length t ≡ rec → length u ≡ answers → number_in result ≡ rehearsal_refusal n opened.now s t u }
{
    if n < 1 || 8 < n {
        Err(Unrehearsed::Sites)
    } else if script % 8 != 0 || 32768 < script {
        Err(Unrehearsed::Script)
    } else if rec < layout::LONGEST {
        Err(Unrehearsed::ShortRecord)
    } else if answers < script {
        Err(Unrehearsed::ShortAnswers)
    } else if opened.len() != 132 || !openings::hold(opened, 0) {
        Err(Unrehearsed::Openings)
    } else {
        Ok(())
    }
}
