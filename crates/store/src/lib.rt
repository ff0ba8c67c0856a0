// The rules of the store in specs/, and in proofs/ that every script leaves a causal record. The code has what a rehearsal comes to alone.
#![tactic(auto)]

ghost use Rattle.std.specs.Prelude.{◌≡◌};
ghost use Rattle.store.specs.Rehearsal.{unrehearsed_number};

// What is wrong where a rehearsal is refused: the number of sites, the script, the room for the record or for the answers, or the openings.
#[derive(Clone, Copy)]
pub enum Unrehearsed {
    Sites,
    Script,
    ShortRecord,
    ShortAnswers,
    Openings,
}

// What a rehearsal came to that was not refused: the record's length, and the copies outstanding.
#[derive(Clone, Copy)]
pub struct Rehearsed {
    pub length: usize,
    pub outstanding: usize,
}

pub type Rehearsal = Result<Rehearsed, Unrehearsed>;

impl Unrehearsed {
    // The number of the question that got a no.
    pub fn number(self) -> usize
        ensures { result ≡ unrehearsed_number self }
    {
        match self {
            Unrehearsed::Sites => 20,
            Unrehearsed::Script => 21,
            Unrehearsed::ShortRecord => 22,
            Unrehearsed::ShortAnswers => 23,
            Unrehearsed::Openings => 40,
        }
    }
}
