// Tables filled once a record, and each predicate judged from them. Rows are as wide as those of the work slice from here on.
ghost use Rattle.std.specs.Prelude.{◌≡◌, true, ◌++◌, ◌*◌, ◌≤◌, length, drop, replicate};
ghost use Rattle.rows.specs.Row.{row_at};
ghost use Rattle.rows.specs.Relation.{Graph};
ghost use Rattle.record.specs.Layout.{edition_of, count_in, most_events, row_words, work_words, terms_length};
ghost use Rattle.record.specs.Words.{head_words, terms_words};
ghost use Rattle.consistency.specs.FirstPair.{first};
ghost use Rattle.consistency.specs.Predicates.{verdict};
ghost use Rattle.events.specs.Given.{Given, every_row, group_rows, Groups, Placed};
ghost use Rattle.tables.specs.Tables.{part, Prepared, Finished};
ghost use Rattle.pairs.specs.Searches.{lacks};
ghost use Rattle.judge.specs.Ready.{ReadInto, history_in, Ready};

use consistency::{Predicate, Verdict};
use events::heads::Heads;
use events::terms::Terms;
use events::{EVERY, Events, READS, WRITES};
use pairs::{inclusion, order, reads};
use reach::closure;
use record::layout;
use tables::{arbitration, groups, sweep};

// The tables, by their place in the slice, which is reckoned with.
const RB: usize = 0;

pub const SO: usize = 1;

const MIDDLES: usize = 2;

const OBJECTS: usize = 3;

const HB: usize = 4;

const AR: usize = 5;

const TABLES: usize = 6;

// A record that passed; `seen` begins with its visible sets.
#[derive(Clone, Copy)]
pub struct Passed<'a> {
    pub record: &'a [u8],
    pub seen: &'a [u64],
    pub ghost read: { ReadInto record.now seen.now },
}

// Room for the words, groups and tables of any record. It is large, so it is lent and never moved.
#[derive(Drop)]
pub struct Room {
    pub count: usize,
    pub heads: [u64; layout::HEADS],
    pub terms: [u64; layout::TERMS],
    pub groups: [u64; events::GROUPS * layout::ROW],
    pub tables: [u64; TABLES * layout::WORK],
}

// What the predicates of a record that passed are judged from.
#[derive(Clone, Copy)]
pub struct Evidence<'a> {
    pub events: Events<'a, { layout::ROW }>,
    pub terms: Terms<'a>,
    pub tables: &'a [u64],
    pub ghost filled: { Prepared events.count row_words (history_in events.count events.heads.words.now events.seen.now terms.words.now) tables.now },
}

// Events with rows as wide as those of the work slice.
fn events_of<'a>(
    n: usize,
    heads: &'a [u64],
    v: &'a [u64],
    groups: &'a [u64],
) -> Events<'a, { layout::ROW }>
    requires { Given n row_words heads.now v.now × Groups n row_words heads.now groups.now }
    ensures { (result.count ≡ n) × (result.heads.words.now ≡ heads.now) × (result.seen.now ≡ v.now) × (result.groups.now ≡ groups.now) }
{
    Events {
        count: n,
        heads: Heads { words: heads },
        seen: v,
        groups,
    }
}

// Closes table 4, which was swept as the steps of hb, and fills table 5 with ar.
fn finish(heads: &Heads, n: usize, t: &mut [u64])
    requires { (4 * n ≤ length heads.now.words.now) × Placed n heads.now.words.now × (6 * (n * row_words) ≤ length t.old) × Graph (part n row_words 4 t.old) n row_words }
    ensures { Finished n row_words heads.now.words.now t.old t.new }
{
    let size = n * layout::ROW;
    let steps = HB * size;
    let positions = AR * size;
    closure::close(&mut t[steps..steps + size], n, layout::ROW);
    arbitration::fill(heads, n, layout::ROW, &mut t[positions..positions + size]);
}

// Fills the six tables.
fn fill_tables(events: &Events<{ layout::ROW }>, terms: &Terms, t: &mut [u64])
    requires { 6 * (events.now.count * row_words) ≤ length t.old }
    ensures prepared { let e = events.now in Prepared e.count row_words (history_in e.count e.heads.words.now e.seen.now terms.now.words.now) t.new }
    ensures t_len_unchanged { let n = events.now.count in (length t.new ≡ length t.old) × (drop (6 * (n * row_words)) t.new ≡ drop (6 * (n * row_words)) t.old) }
{
    sweep::sweep(events, terms, t);
    finish(&events.heads, events.count, t);
}

// Loads and fills, and tells how many events there are. The room comes in parts: fields behind one reference are not lent side by side. So does what passed:
// of bytes behind a reference to a struct no proof knows the range.
fn fill(
    s: &[u8],
    v: &[u64],
    heads: &mut [u64],
    terms: &mut [u64],
    groups: &mut [u64],
    tables: &mut [u64],
) -> usize
    requires read_into { ReadInto s.now v.now }
    requires heads_len { (length heads.old ≡ 4 * most_events) × (length terms.old ≡ terms_length) × (groups.old ≡ replicate (group_rows * row_words) 0) × (length tables.old ≡ 6 * work_words) }
    ensures ready { Ready s.now result heads.new v.now terms.new groups.new tables.new }
    ensures count { result ≡ count_in s.now }
    ensures heads_after { heads.new ≡ head_words (edition_of s.now) s.now ++ drop (result * 4) heads.old }
    ensures terms_after { terms.new ≡ terms_words s.now }
    ensures tables_unchanged { drop (6 * (result * row_words)) tables.new ≡ drop (6 * (result * row_words)) tables.old }
{
    let n = reader::header::count(s);
    reader::words::load(s, n, 0, layout::HEAD, heads);
    reader::words::load_terms(s, terms);
    groups::fill(&Heads { words: heads }, n, layout::ROW, groups);
    let events = events_of(n, heads, v, groups);
    fill_tables(&events, &Terms { words: terms }, tables);
    n
}

impl Room {
    pub const EMPTY: Room = Room {
        count: 0,
        heads: [0; layout::HEADS],
        terms: [0; layout::TERMS],
        groups: [0; events::GROUPS * layout::ROW],
        tables: [0; TABLES * layout::WORK],
    };

    // Loads and fills a room without groups.
    pub fn prepare(&mut self, passed: &Passed)
        requires { self.old.groups ≡ replicate (group_rows * row_words) 0 }
        ensures ready { Ready passed.now.record.now self.new.count self.new.heads passed.now.seen.now self.new.terms self.new.groups self.new.tables }
        ensures count { self.new.count ≡ count_in passed.now.record.now }
        ensures heads_after { self.new.heads ≡ head_words (edition_of passed.now.record.now) passed.now.record.now ++ drop (self.new.count * 4) self.old.heads }
        ensures terms_after { self.new.terms ≡ terms_words passed.now.record.now }
        ensures tables_unchanged { drop (6 * (self.new.count * row_words)) self.new.tables ≡ drop (6 * (self.new.count * row_words)) self.old.tables }
    {
        let Room {
            count,
            heads,
            terms,
            groups,
            tables,
        } = self;
        *count = fill(passed.record, passed.seen, heads, terms, groups, tables);
    }

    // What was prepared, with the visible sets.
    pub fn evidence<'a>(&'a self, v: &'a [u64]) -> Evidence<'a>
        requires given { Given self.now.count row_words self.now.heads v.now × Groups self.now.count row_words self.now.heads self.now.groups }
        requires filled { Prepared self.now.count row_words (history_in self.now.count self.now.heads v.now self.now.terms) self.now.tables }
        ensures seen { (result.events.count ≡ self.now.count) × (result.events.seen.now ≡ v.now) }
        ensures lent { (result.events.heads.words.now ≡ self.now.heads) × (result.events.groups.now ≡ self.now.groups) × (result.terms.words.now ≡ self.now.terms) × (result.tables.now ≡ self.now.tables) }
    {
        Evidence {
            events: events_of(self.count, &self.heads, v, &self.groups),
            terms: Terms { words: &self.terms },
            tables: &self.tables,
        }
    }
}

impl<'a> Evidence<'a> {
    // Table k.
    pub fn table(&self, k: usize) -> &'a [u64]
        requires { k ≤ 5 }
        ensures { result.now ≡ part self.now.events.count row_words k self.now.tables.now }
    {
        let size = self.events.count * layout::ROW;
        let at = k * size;
        &self.tables[at..at + size]
    }

    // Every pair of table k, from an event of group `starts` to one of group `ends`, is in r.
    fn within(&self, k: usize, starts: usize, ends: usize, r: &[u64]) -> Verdict
        requires { (k ≤ 5) × (starts ≤ every_row) × (ends ≤ every_row) × (self.now.events.count * row_words ≤ length r.now) }
        ensures { let e = self.now.events in result ≡ first e.count (lacks row_words (part e.count row_words k self.now.tables.now) (row_at e.groups.now row_words starts) (row_at e.groups.now row_words ends) r.now) }
    {
        let n = self.events.count;
        let table = self.table(k);
        let from = self.events.group(starts);
        let to = self.events.group(ends);
        if ends == EVERY {
            inclusion::first_outside_whole::<{ layout::ROW }>(n, table, from, to, r)
        } else {
            inclusion::first_outside::<{ layout::ROW }>(n, table, from, to, r)
        }
    }

    // The verdict of one predicate.
    pub fn judge(&self, p: Predicate) -> Verdict
        ensures { let e = self.now.events in result ≡ verdict p (history_in e.count e.heads.words.now e.seen.now self.now.terms.words.now) }
    {
        let ar = self.table(AR);
        let vis = self.events.seen;
        match p {
            Predicate::RVal => reads::wrong_values(&self.events, &self.terms, ar),
            Predicate::SingleOrder => order::first_misplaced(false, &self.events, ar),
            Predicate::RealTime => self.within(RB, EVERY, EVERY, ar),
            Predicate::RealTimeWrites => self.within(RB, WRITES, EVERY, ar),
            Predicate::MonotonicReads => self.within(MIDDLES, EVERY, READS, vis),
            Predicate::ReadYourWrites => self.within(SO, WRITES, READS, vis),
            Predicate::MonotonicWrites => self.within(SO, WRITES, WRITES, ar),
            Predicate::WritesFollowReads => self.within(MIDDLES, WRITES, WRITES, ar),
            Predicate::Pram => self.within(SO, EVERY, EVERY, vis),
            Predicate::CausalVisibility => self.within(HB, EVERY, EVERY, vis),
            Predicate::CausalArbitration => self.within(HB, EVERY, EVERY, ar),
            Predicate::PerObjectPram => self.within(OBJECTS, EVERY, EVERY, vis),
            Predicate::PerObjectSingleOrder => order::first_misplaced(true, &self.events, ar),
        }
    }
}
