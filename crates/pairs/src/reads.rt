// Predicate 1, RVal: what each returned read holds.
ghost use Rattle.std.specs.Prelude.{◌≡◌, true, ℕ, ◌+◌, ◌*◌, ◌^◌, ◌<◌, ◌≤◌, length};
ghost use Rattle.rows.specs.Row.{has};
ghost use Rattle.rows.specs.Relation.{Table};
ghost use Rattle.record.specs.History.{under};
ghost use Rattle.record.specs.Words.{object_in, position_in, opening_from, terms_from};
ghost use Rattle.consistency.specs.FirstPair.{first};
ghost use Rattle.consistency.specs.Relations.{ar};
ghost use Rattle.consistency.specs.Reads.{last_write, left_by, held, same_held, wrong};
ghost use Rattle.events.specs.Given.{fields_of};
ghost use Rattle.pairs.specs.Searches.{history_given, Picked, SomeMember, Latest, FoundBelow};

use super::ordered::Ordered;
use consistency::{Last, Verdict};
use events::terms::Terms;
use events::{Events, WRITES};

// A member of `a` that `b` lacks, if there is any. The search starts at the end, where later events mostly stand.
fn pick_difference(a: &[u64], b: &[u64]) -> Option<usize>
    requires { (64 * length a.now < 2 ^ 64) × (length a.now ≤ length b.now) }
    ensures { Picked a.now b.now result }
{
    for i in (0..a.len()).rev() {
        let x = a[i] & !b[i];
        if x != 0 {
            return Some(i * 64 + (63 - x.leading_zeros() as usize));
        }
    }
    None
}

// A member of `seen` that likely is the last in ar: the highest, or the lowest where that is later.
fn likely_last<const W: usize>(order: &Ordered<W>, seen: &[u64; W]) -> Option<usize>
    requires { (x : ℕ) → has seen.now x ≡ true → x < order.now.events.count }
    ensures { SomeMember seen.now result }
{
    let high = rows::highest(seen)?;
    let low = rows::lowest(seen)?;
    if rows::test(order.before(low), high) {
        Some(low)
    } else {
        Some(high)
    }
}

// The last in ar of the events in `seen`: from one that likely is it on to one that is later, as long as there is any.
fn last_of<const W: usize>(order: &Ordered<W>, seen: &mut [u64; W]) -> Last
    requires { (x : ℕ) → has seen.old x ≡ true → x < order.now.events.count }
    ensures { Latest (position_in order.now.events.heads.words.now) seen.old result }
{
    let mut x = likely_last(order, seen)?;
    loop {
        rows::remove(seen, x);
        let Some(later) = pick_difference(seen, order.before(x)) else {
            return Some(x);
        };
        x = later;
    }
}

// Of the writes on e's object that e sees the last in ar.
fn last_write<const W: usize>(order: &Ordered<W>, e: usize) -> Last
    requires { e < order.now.events.count }
    ensures value { result ≡ last_write (history_given W order.now.events) e }
    ensures found_below { FoundBelow order.now.events.count result }
{
    let events = &order.events;
    let object = events.heads.object(e) as usize;
    let mut seen = [0u64; W];
    rows::meet(
        &mut seen,
        events.seen_by(e),
        events.group(WRITES),
        events.group(object),
    );
    last_of(order, &mut seen)
}

// Whether a read holds its object's opening, or none where there is none.
fn holds_opening<const W: usize>(events: &Events<W>, terms: &Terms, e: usize) -> bool
    requires { e < events.now.count }
    ensures { result ≡ same_held (held (fields_of events.now.heads.words.now) e) (opening_from terms.now.words.now (object_in events.now.heads.words.now e)) }
{
    let object = events.heads.object(e) as usize;
    if !terms.has_opening(object) {
        return !events.heads.is_present(e);
    }
    events.heads.is_present(e) && events.heads.value(e) == terms.opening(object)
}

// Whether a read holds what the last write that it sees left, or its object's opening where it sees none.
fn is_held<const W: usize>(events: &Events<W>, terms: &Terms, e: usize, found: Last) -> bool
    requires { (e < events.now.count) × FoundBelow events.now.count found }
    ensures { result ≡ same_held (held (fields_of events.now.heads.words.now) e) (left_by (under (terms_from terms.now.words.now) (fields_of events.now.heads.words.now)) e found) }
{
    match found {
        None => holds_opening(events, terms, e),
        Some(x) => events.heads.is_present(e) && events.heads.value(e) == events.heads.value(x),
    }
}

// The first returned read that holds something else, with that last write or itself.
pub fn wrong_values<const W: usize>(events: &Events<W>, terms: &Terms, ars: &[u64]) -> Verdict
    requires table { Table events.now.count W (ar (fields_of events.now.heads.words.now)) ars.now × (events.now.count * W ≤ length ars.now) }
    ensures { result ≡ first events.now.count (wrong (under (terms_from terms.now.words.now) (history_given W events.now))) }
{
    let order = Ordered {
        events: *events,
        ars,
    };
    for e in 0..events.count {
        if !events.heads.is_write(e) && !events.heads.is_pending(e) {
            let found = last_write(&order, e);
            if !is_held(events, terms, e, found) {
                return Some((e, found.unwrap_or(e)));
            }
        }
    }
    None
}
