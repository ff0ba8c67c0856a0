// What grain position records are: their format and the questions asked of them in specs/, what follows from these in proofs/. The code has their types, and where things stand in a record.
#![tactic(auto)]

pub mod layout;
pub mod openings;
pub mod sums;

ghost use Rattle.std.specs.Prelude.{◌≡◌};
ghost use Rattle.record.specs.Questions.{number_of, place_of, refusal_number, refusal_place};

// The first question that got a no, with its place.
#[derive(Clone, Copy)]
pub enum Refusal {
    ShortWork,
    WrongLength,
    WrongCheck(usize),
    WrongHeader,
    WrongBlocks,
    WrongSlot(usize),
    WrongPosition(usize),
    WrongSet(usize),
    OnRing(usize),
}

// The numbers by which editions differ: a record's four letters, the bytes of a slot, those from the start of a block's last slot to the next block, the slots
// of a block, the words of a visible set, the most events, and whether block 0 has terms.
#[derive(Clone, Copy)]
pub struct Edition {
    pub letters: [u8; 4],
    pub slot: usize,
    pub rest: usize,
    pub slots: usize,
    pub row: usize,
    pub events: usize,
    pub terms: bool,
}

// The fields of a slot; its visible set is a row beside it. `present` and `value` are no Option: a writer promises the bytes of every Slot (SlotOf), of one with
// a value that is not present too.
#[derive(Clone, Copy)]
pub struct Slot {
    pub write: bool,
    pub site: u8,
    pub object: u8,
    pub pending: bool,
    pub present: bool,
    pub value: u32,
    pub position: u16,
    pub start: u64,
    pub returned: u64,
}

// How a record was read: it passed, or a question got a no.
pub type Reading = Result<(), Refusal>;

impl Refusal {
    // The question's number.
    pub fn number(self) -> usize
        ensures { result ≡ refusal_number self }
    {
        match self {
            Refusal::ShortWork => 1,
            Refusal::WrongLength => 3,
            Refusal::WrongCheck(_) => 4,
            Refusal::WrongHeader => 5,
            Refusal::WrongBlocks => 6,
            Refusal::WrongSlot(_) => 7,
            Refusal::WrongPosition(_) => 8,
            Refusal::WrongSet(_) => 9,
            Refusal::OnRing(_) => 10,
        }
    }

    // Its place, 0 where the question has none.
    pub fn place(self) -> usize
        ensures { result ≡ refusal_place self }
    {
        match self {
            Refusal::WrongCheck(at)
            | Refusal::WrongSlot(at)
            | Refusal::WrongPosition(at)
            | Refusal::WrongSet(at)
            | Refusal::OnRing(at) => at,
            Refusal::ShortWork
            | Refusal::WrongLength
            | Refusal::WrongHeader
            | Refusal::WrongBlocks => 0,
        }
    }
}

// The number of the question that got a no, or 0.
pub fn number(r: Reading) -> usize
    ensures { result ≡ number_of r }
{
    match r {
        Ok(()) => 0,
        Err(refusal) => refusal.number(),
    }
}

// Its place.
pub fn place(r: Reading) -> usize
    ensures { result ≡ place_of r }
{
    match r {
        Ok(()) => 0,
        Err(refusal) => refusal.place(),
    }
}
