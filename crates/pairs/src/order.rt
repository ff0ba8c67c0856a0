// Predicates 2 and 13: vis is ar but for the pairs that begin in some pending events; with `cut`, on each object by itself.
ghost use Rattle.std.specs.Prelude.{◌≡◌, true, not, ◌&&◌, ◌||◌, ℕ, ◌+◌, ◌*◌, ◌/◌, ◌<◌, ◌≤◌, length};
ghost use Rattle.rows.specs.Row.{has, Row};
ghost use Rattle.rows.specs.Relation.{Table};
ghost use Rattle.record.specs.Words.{is_pending_in};
ghost use Rattle.consistency.specs.FirstPair.{first};
ghost use Rattle.consistency.specs.Relations.{ar};
ghost use Rattle.consistency.specs.Predicates.{differ};
ghost use Rattle.events.specs.Given.{fields_of};
ghost use Rattle.pairs.specs.Searches.{history_given, all_pairs, cut_to, misplaced, told_apart, Parted};

use super::ordered::Ordered;
use consistency::Verdict;
use events::{EVERY, Events};

// The events with which b is compared: all, or with `cut` those on its object.
fn mates<'a, const W: usize>(cut: bool, events: &Events<'a, W>, b: usize) -> &'a [u64]
    requires { b < events.now.count }
    ensures mates { Row events.now.count (λ a. cut_to cut (history_given W events.now) all_pairs a b) result.now }
    ensures wide { length result.now ≡ W }
{
    let group = if cut {
        events.heads.object(b) as usize
    } else {
        EVERY
    };
    events.group(group)
}

// Of `mates`, what exactly one of `seen` and `before` has joins `differing`, and what `seen` has joins `visible`.
fn join(differing: &mut [u64], visible: &mut [u64], seen: &[u64], before: &[u64], mates: &[u64])
    requires { (length differing.old ≡ length mates.now) × (length visible.old ≡ length mates.now) × (length seen.now ≡ length mates.now) × (length before.now ≡ length mates.now) }
    ensures sizes { (length differing.new ≡ length differing.old) × (length visible.new ≡ length visible.old) }
    ensures differs { (x : ℕ) → has differing.new x ≡ has differing.old x || differ (has seen.now x) (has before.now x) && has mates.now x }
    ensures begins { (x : ℕ) → has visible.new x ≡ has visible.old x || has seen.now x && has mates.now x }
{
    for (i, mate) in mates.iter().enumerate() {
        differing[i] |= (seen[i] ^ before[i]) & mate;
        visible[i] |= seen[i] & mate;
    }
}

// The events for which vis and ar differ on some event, and those visible to some event.
fn compare<const W: usize>(
    cut: bool,
    order: &Ordered<W>,
    differing: &mut [u64; W],
    visible: &mut [u64; W],
)
    ensures sizes { (length differing.new ≡ W) × (length visible.new ≡ W) }
    ensures parted { Parted cut (history_given W order.now.events) differing.new visible.new }
{
    rows::clear(differing);
    rows::clear(visible);
    for b in 0..order.events.count {
        let seen = order.events.seen_by(b);
        join(
            differing,
            visible,
            seen,
            order.before(b),
            mates(cut, &order.events, b),
        );
    }
}

// Whether a fits neither way, by the rows of `compare`: vis and ar differ for it, and it is no pending event that nothing sees.
fn is_misfit<const W: usize>(
    events: &Events<W>,
    differing: &[u64; W],
    visible: &[u64; W],
    a: usize,
) -> bool
    requires { a < events.now.count }
    ensures { result ≡ has differing.now a && not (is_pending_in events.now.heads.words.now a && not (has visible.now a)) }
{
    rows::test(differing, a) && (!events.heads.is_pending(a) || rows::test(visible, a))
}

// Whether vis and ar differ on a and b.
fn is_apart<const W: usize>(cut: bool, order: &Ordered<W>, a: usize, b: usize) -> bool
    requires { (a < order.now.events.count) × (b < order.now.events.count) }
    ensures { result ≡ told_apart cut (history_given W order.now.events) a b }
{
    rows::test(mates(cut, &order.events, b), a)
        && rows::test(order.events.seen_by(b), a) != rows::test(order.before(b), a)
}

// The lowest a that fits neither way, with the lowest b on which vis and ar differ for it. The pairs of one a at most are tested.
pub fn first_misplaced<const W: usize>(cut: bool, events: &Events<W>, ars: &[u64]) -> Verdict
    requires table { Table events.now.count W (ar (fields_of events.now.heads.words.now)) ars.now × (events.now.count * W ≤ length ars.now) }
    ensures { result ≡ first events.now.count (misplaced cut (history_given W events.now)) }
{
    let order = Ordered {
        events: *events,
        ars,
    };
    let differing = &mut [0u64; W];
    let visible = &mut [0u64; W];
    compare(cut, &order, differing, visible);
    // No `find`: nested loops, left by label with the pair, are this project's form for this place (docs/DECISIONS.md).
    'search: {
        for a in 0..events.count {
            if is_misfit(events, differing, visible, a) {
                for b in 0..events.count {
                    if is_apart(cut, &order, a, b) {
                        break 'search Some((a, b));
                    }
                }
            }
        }
        None
    }
}
