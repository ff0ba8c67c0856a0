// A record as questions 7 to 10 are asked of it, and questions 3 to 6, which come before them.
ghost use Rattle.std.specs.Prelude.{◌≡◌, ℕ, ◌<◌, ◌≤◌, length, get_or, Err};
ghost use Rattle.std.specs.Result.{MatchResult};
ghost use Rattle.record.specs.Layout.{edition_of, numbers_of, count_in};
ghost use Rattle.record.specs.Answers.{FrameRight, Tells};

use super::{blocks, header};
use record::{Edition, Refusal, layout};

// The bytes of a record, with its edition and the count of its events.
#[derive(Clone, Copy)]
pub struct Framed<'a> {
    pub bytes: &'a [u8],
    pub edition: Edition,
    pub count: usize,
    pub ghost numbers: { (count ≡ count_in bytes.now) × (edition ≡ numbers_of (edition_of bytes.now)) },
    pub ghost octets: { (i : ℕ) → get_or bytes.now i 0 < 256 },
    pub ghost long: { 512 ≤ length bytes.now },
}

impl<'a> Framed<'a> {
    // Questions 3 to 6.
    pub fn new(s: &'a [u8]) -> Result<Framed<'a>, Refusal>
        ensures { MatchResult result (λ f. (f.bytes.now ≡ s.now) × FrameRight (edition_of s.now) s.now) (λ r. Tells (edition_of s.now) s.now (Err r)) }
    {
        if !header::length_holds(s) {
            return Err(Refusal::WrongLength);
        }
        if let Some(block) = blocks::wrong_block(s) {
            return Err(Refusal::WrongCheck(block));
        }
        let edition = header::edition(s);
        if !header::header_holds(s, edition) {
            return Err(Refusal::WrongHeader);
        }
        let count = header::count(s);
        if s.len() / 512 != layout::blocks(edition, count) {
            return Err(Refusal::WrongBlocks);
        }
        Ok(Framed {
            bytes: s,
            edition,
            count,
        })
    }
}
