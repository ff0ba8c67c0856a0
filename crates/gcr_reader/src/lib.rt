// The reader for hosts, callable from C and Rust on slices: it goes to members' sites on its own.
#![tactic(auto)]

ghost use Rattle.std.specs.Prelude.{◌≡◌, length};
ghost use Rattle.record.specs.Layout.{edition_of};
ghost use Rattle.record.specs.Questions.{number_of, reading, packed_reading};
ghost use Rattle.record.specs.BeforeHarvest.{KeepsReadNumber};
ghost use Rattle.record.specs.Words.{work_after};

// 0 where the record passes, else the refusal's number and place, packed.
#[unsafe(no_mangle)]
pub extern "C" fn gcr_read(s: &[u8], work: &mut [u64]) -> u64
    ensures value { result ≡ packed_reading (reading (edition_of s.now) (length work.old) s.now) }
    ensures work_after { work.new ≡ work_after (edition_of s.now) (number_of (reading (edition_of s.now) (length work.old) s.now)) s.now work.old }
    ensures keeps_read_number { KeepsReadNumber (length work.old) s.now result }
{
    match reader::read(s, work) {
        Ok(()) => 0,
        Err(refusal) => packed::refusal(refusal.number(), refusal.place()),
    }
}
