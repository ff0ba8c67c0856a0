// The explanation for hosts, callable from C and Rust on a number, a byte slice and a slice of events.
ghost use Rattle.std.specs.Prelude.{◌≡◌, length};
ghost use Rattle.record.specs.Layout.{work_words};
ghost use Rattle.judge.specs.Judgments.{predicate_judgment_of, packed_judgment};
ghost use Rattle.explain.specs.Explanations.{explanation_of, entries_after_it, packed_explanation};
ghost use Rattle.explain.specs.Means.{TellsHostsWhy};

use explain::packing;
use record::layout;

// Tells what happened where a predicate breaks, with the work memory inside.
#[unsafe(no_mangle)]
pub extern "C" fn gcr_explain(predicate: u32, s: &[u8], events: &mut [u16]) -> u64
    ensures value { result ≡ packed_explanation (explanation_of work_words (length events.old) predicate s.now) }
    ensures events_after { events.new ≡ entries_after_it (explanation_of work_words (length events.old) predicate s.now) predicate s.now events.old }
    ensures tells_hosts_why { TellsHostsWhy predicate s.now events.old (packed_judgment (predicate_judgment_of work_words predicate s.now)) result events.new }
{
    let mut work = [0u64; layout::WORK];
    packing::pack(explain::explain(predicate as usize, s, &mut work, events))
}
