// What is told of a break, from the tables that the judge prepares.
ghost use Rattle.std.specs.Prelude.{◌≡◌, true, ◌&&◌, ◌∷◌, ◌++◌, ◌*◌, ◌<◌, ◌≤◌, length, take, drop};
ghost use Rattle.rows.specs.Lowest.{lowest, some};
ghost use Rattle.rows.specs.Row.{row_at, or_part, only_first};
ghost use Rattle.rows.specs.Relation.{reaches, related, Graph};
ghost use Rattle.rows.specs.Shortest.{shortest_chain};
ghost use Rattle.record.specs.Layout.{most_events, row_words};
ghost use Rattle.consistency.specs.Predicates.{verdict};
ghost use Rattle.consistency.specs.Explained.{telling};
ghost use Rattle.events.specs.Given.{writes_row};
ghost use Rattle.tables.specs.Tables.{part};
ghost use Rattle.judge.specs.Judgments.{said_by};
ghost use Rattle.judge.specs.Ready.{ReadInto};
ghost use Rattle.explain.specs.Explanations.{entries_asked, answer_to, events_told, over};
ghost use Rattle.explain.specs.Steps.{step_in, between};

use super::{Explanation, Unexplained};
use consistency::{Predicate, Telling};
use judge::prepared::{Evidence, Passed, Room, SO};
use record::layout;
use rows::graph::Relation;

// How the break of a predicate is told.
fn way(p: Predicate) -> Telling
    ensures { result ≡ telling p }
{
    match p {
        Predicate::CausalVisibility | Predicate::CausalArbitration => Telling::ByChain,
        Predicate::MonotonicReads | Predicate::WritesFollowReads => Telling::ByMiddle,
        _ => Telling::ByPair,
    }
}

// The lowest middle event between a and b, then b.
fn write_middle(evidence: &Evidence, a: usize, b: usize, out: &mut [u16])
    requires in_bounds { (a < evidence.now.events.count) × (b < evidence.now.events.count) × (2 ≤ length out.old) }
    requires there { some evidence.now.events.count (between evidence.now.events.count evidence.now.events.seen.now evidence.now.events.groups.now evidence.now.tables.now a b) ≡ true }
    ensures { out.new ≡ lowest evidence.now.events.count (between evidence.now.events.count evidence.now.events.seen.now evidence.now.events.groups.now evidence.now.tables.now a b) ∷ b ∷ drop 2 out.old }
{
    let n = evidence.events.count;
    let seen = Relation {
        words: evidence.events.seen,
        count: n,
        width: layout::ROW,
    };
    let so = Relation {
        words: evidence.table(SO),
        count: n,
        width: layout::ROW,
    };
    let writes = evidence.events.group(events::WRITES);
    let middle = chains::lowest_after(&seen, a, so.row(b), writes).unwrap();
    out[0] = middle as u16;
    out[1] = b as u16;
}

// A shortest chain from a to b, and how many events it has. Each step is so or vis: the visible sets join so's table, which becomes that of the steps.
fn write_chain(v: &[u64], n: usize, t: &mut [u64], a: usize, b: usize, out: &mut [u16]) -> usize
    requires graph { Graph v.now n row_words × Graph (part n row_words 1 t.old) n row_words × (6 * (n * row_words) ≤ length t.old) × (n ≤ most_events) }
    requires a_lt_n { (a < n) × (b < n) × (n ≤ length out.old) }
    requires b_value { reaches n (step_in n t.old v.now) a b ≡ true }
    ensures value { result ≡ length (shortest_chain n (step_in n t.old v.now) a b) }
    ensures out_after { out.new ≡ shortest_chain n (step_in n t.old v.now) a b ++ drop result out.old }
    ensures t_after { t.new ≡ or_part t.old (1 * (n * row_words)) (take (n * row_words) v.now) }
{
    let size = n * layout::ROW;
    let at = SO * size;
    rows::union_into(t, at, &v[..size]);
    let steps = Relation {
        words: &t[at..at + size],
        count: n,
        width: layout::ROW,
    };
    chains::shortest(&steps, a, b, out)
}

// Judges a predicate of a record that passed, and tells of its break; v begins with its visible sets.
pub fn tell(p: Predicate, s: &[u8], v: &[u64], out: &mut [u16]) -> Explanation
    requires { ReadInto s.now v.now × (entries_asked ≤ length out.old) }
    ensures value { result ≡ answer_to p (said_by s.now) (verdict p (said_by s.now)) }
    ensures out_after { out.new ≡ over (events_told p (said_by s.now) (verdict p (said_by s.now))) out.old }
{
    let passed = Passed { record: s, seen: v };
    let mut room = Room::EMPTY;
    room.prepare(&passed);
    let evidence = room.evidence(v);
    let Some((a, b)) = evidence.judge(p) else {
        return Err(Unexplained::NoBreak);
    };
    match way(p) {
        Telling::ByChain => Ok(write_chain(v, room.count, &mut room.tables, a, b, out)),
        Telling::ByMiddle => {
            write_middle(&evidence, a, b, out);
            Ok(2)
        }
        Telling::ByPair => {
            out[0] = b as u16;
            Ok(1)
        }
    }
}
