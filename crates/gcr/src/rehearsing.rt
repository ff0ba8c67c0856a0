// The rehearsal for hosts, callable from C and Rust on a number and slices.
ghost use Rattle.std.specs.Prelude.{◌≡◌, None, Ok};
ghost use Rattle.record.specs.Layout.{work_words};
ghost use Rattle.judge.specs.Judgments.{model_judgment_of};
ghost use Rattle.store.specs.Rehearsal.{record_of};
ghost use Rattle.store.specs.Demand.{Rehearses};
ghost use Rattle.gcr.specs.Packed.{unpacked_rehearsal};

// The result is packed as number + 256 × length + 16,777,216 × outstanding. The judge, asked for model 4 of the record, promises to find it met.
#[unsafe(no_mangle)]
pub extern "C" fn gcr_rehearse(
    sites: u32,
    openings: &[u8],
    script: &[u8],
    rec: &mut [u8],
    answers: &mut [u8],
) -> u64
    ensures rehearses { Rehearses sites openings.now script.now rec.old answers.old rec.new answers.new (unpacked_rehearsal result) }
    ensures script_value { (unpacked_rehearsal result).number ≡ 0 → model_judgment_of work_words 4 (record_of sites openings.now script.now) ≡ Ok None }
{
    match rehearsal::rehearse(sites as usize, openings, script, rec, answers) {
        Ok(r) => 256 * r.length as u64 + 16777216 * r.outstanding as u64,
        Err(refusal) => refusal.number() as u64,
    }
}
