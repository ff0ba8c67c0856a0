// The judge for hosts, callable from C and Rust on numbers and a byte slice.
ghost use Rattle.std.specs.Prelude.{◌≡◌, [], ◌∷◌};
ghost use Rattle.record.specs.Layout.{edition_of, work_words};
ghost use Rattle.record.specs.Questions.{reading, packed_reading};
ghost use Rattle.consistency.specs.Models.{list_of};
ghost use Rattle.judge.specs.Judgments.{predicate_judgment_of, model_judgment_of, packed_judgment, packed_judgments_of, laid_over};
ghost use Rattle.judge.specs.Hosts.{ExactHost, ExactThirteen};
ghost use Rattle.judge.specs.Covers.{TellsHosts};
ghost use Rattle.judge.specs.Kept.{KeepsNumber, KeepsThirteen};

use judge::packing;
use record::layout;

// Judges a model, with the work memory inside.
#[unsafe(no_mangle)]
pub extern "C" fn gcr_judge_model(model: u32, s: &[u8]) -> u64
    ensures value { result ≡ packed_judgment (model_judgment_of work_words model s.now) }
    ensures exact_host { ExactHost work_words model (list_of model) s.now result }
    ensures tells_hosts { TellsHosts model s.now result }
    ensures keeps_number { KeepsNumber model (list_of model) s.now result }
{
    let mut work = [0u64; layout::WORK];
    packing::pack(judge::judge_model(model as usize, s, &mut work))
}

// The same of one predicate: C calls each by its name.
#[unsafe(no_mangle)]
pub extern "C" fn gcr_judge_predicate(predicate: u32, s: &[u8]) -> u64
    ensures value { result ≡ packed_judgment (predicate_judgment_of work_words predicate s.now) }
    ensures exact_host { ExactHost work_words predicate (predicate ∷ []) s.now result }
    ensures keeps_number { KeepsNumber predicate (predicate ∷ []) s.now result }
{
    let mut work = [0u64; layout::WORK];
    packing::pack(judge::judge_predicate(predicate as usize, s, &mut work))
}

// The first of v, as many as fit, go over the front of `out`.
fn put_over(v: &[u64], out: &mut [u64])
    ensures { out.new ≡ laid_over v.now out.old }
{
    let n = v.len().min(out.len());
    out[..n].copy_from_slice(&v[..n]);
}

// Judges all thirteen predicates: the answer is the reading's number, and the numbers of the thirteen judgments go over the front of `out`.
#[unsafe(no_mangle)]
pub extern "C" fn gcr_judge_all(s: &[u8], out: &mut [u64]) -> u64
    ensures value { result ≡ packed_reading (reading (edition_of s.now) work_words s.now) }
    ensures out_after { out.new ≡ laid_over (packed_judgments_of work_words s.now) out.old }
    ensures exact_thirteen { ExactThirteen work_words s.now out.new }
    ensures keeps_thirteen { KeepsThirteen work_words s.now out.new }
{
    let mut work = [0u64; layout::WORK];
    let all = judge::judge_all(s, &mut work);
    put_over(&all.judgments, out);
    match all.reading {
        Ok(()) => 0,
        Err(refusal) => packed::refusal(refusal.number(), refusal.place()),
    }
}
