// Events settled one by one, each after the unsettled events of its row.
ghost use Rattle.std.specs.Prelude.{◌≡◌, Bool, true, Some, None, ℕ, ◌+◌, ◌-◌, ◌^◌, ◌<◌, ◌≤◌, cond, ltb, get_or, set, length};

// The events that wait for one of their row, the last on top.
#[derive(Drop)]
struct Path {
    events: [u16; 512],
    depth: usize,
    ghost deep: { depth ≤ 512 },
}

impl Path {
    // Whether there was room: no more than `most` wait.
    fn push(&mut self, e: usize, most: usize) -> bool
        requires { (e < 2 ^ 16) × (most ≤ 512) }
        ensures { result ≡ true → (self.old.depth < length self.old.events) × (self.new.events ≡ set self.old.events self.old.depth e) × (self.new.depth ≡ self.old.depth + 1) }
    {
        if most <= self.depth {
            return false;
        }
        self.events[self.depth] = e as u16;
        self.depth += 1;
        true
    }

    fn pop(&mut self) -> Option<usize>
        ensures events_unchanged { self.new.events ≡ self.old.events }
        ensures depth { self.new.depth ≡ self.old.depth - 1 }
        ensures result_value { result ≡ cond (ltb 0 self.old.depth) (Some (get_or self.old.events (self.old.depth - 1) 0)) None }
    {
        if self.depth == 0 {
            return None;
        }
        self.depth -= 1;
        Some(self.events[self.depth] as usize)
    }
}

// What settles the events of a relation.
pub trait Settling {
    // how many events there are, and which of them are settled
    ghost events: { Self → ℕ };

    ghost is_settled: { Self → ℕ → Bool };

    // the second comes of the first by settling; a sound one comes of itself
    ghost Comes: { Self → Self → Type 0 };

    fn count(&self) -> usize
        ensures { result ≡ events self.now };

    // Settles e, unless its row has unsettled events: then the lowest of these.
    fn settle(&mut self, e: usize) -> Option<usize>
        requires { Comes self.old self.old × (e < events self.old) }
        ensures comes { Comes self.old self.new }
        ensures waits { (x : ℕ) → result ≡ Some x → x < events self.old }
        ensures settles { result ≡ None → is_settled self.new e ≡ true };

    ghost joins: { (s t u : Self) → Comes s t → Comes t u → Comes s u };

    ghost sound: { (s t : Self) → Comes s t → Comes t t };

    ghost counts: { (s t : Self) → Comes s t → events t ≡ events s };

    ghost stays: { (s t : Self) → Comes s t → (x : ℕ) → is_settled s x ≡ true → is_settled t x ≡ true };
}

// Settles b after the unsettled events that lead to it. Whether b is settled now: a ring on the way ends the walk, since without one each event is put on the path
// once and taken off it once.
fn settle_from<S: Settling>(relation: &mut S, b: usize, path: &mut Path) -> bool
    requires sound { S.Comes relation.old relation.old × (S.events relation.old ≤ 512) }
    requires b_in_bounds { b < S.events relation.old }
    ensures comes { S.Comes relation.old relation.new }
    ensures b_after { result ≡ true → S.is_settled relation.new b ≡ true }
{
    path.depth = 0;
    let mut e = b;
    let count = relation.count();
    for _ in 0..2 * count {
        if let Some(x) = relation.settle(e) {
            if !path.push(e, count) {
                return false;
            }
            e = x;
        } else {
            let Some(last) = path.pop() else {
                return true;
            };
            e = last;
        }
    }
    false
}

// Settles all events, or those up to the first that a ring leads to. Whether it was all.
pub fn settle_all<S: Settling>(relation: &mut S) -> bool
    requires { S.Comes relation.old relation.old × (S.events relation.old ≤ 512) }
    ensures comes { S.Comes relation.old relation.new }
    ensures all_after { result ≡ true → (b : ℕ) → b < S.events relation.old → S.is_settled relation.new b ≡ true }
{
    let mut path = Path {
        events: [0; 512],
        depth: 0,
    };
    for b in 0..relation.count() {
        if !settle_from(relation, b, &mut path) {
            return false;
        }
    }
    true
}
