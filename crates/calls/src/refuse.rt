// What refuses a call: questions 31 to 36, in that order.
ghost use Rattle.std.specs.Prelude.{◌≡◌, not, ◌&&◌, List, ℕ, ◌≤◌, leb, ltb, get_or};
ghost use Rattle.rows.specs.Row.{has};
ghost use Rattle.record.specs.Layout.{most_events};
ghost use Rattle.record.specs.Questions.{ask};
ghost use Rattle.record.specs.Terms.{Terms};
ghost use Rattle.store.specs.Rules.{reached, refusal};
ghost use Rattle.calls.specs.Mirror.{call_of, refused_number, number_in};
ghost use Rattle.calls.specs.Lent.{row_in, with_events, store_in};

use super::lent::Store;
use super::script::Call;
use super::sites;
use record::layout;

#[derive(Clone, Copy)]
pub enum Refusal {
    IllFormed,
    NoSuchSite,
    NoSuchObject,
    NoSuchPut,
    Full,
    AlreadyKnown,
    NeedsUnmet,
}

impl Refusal {
    // The number of the question that got a no. One number asks of a put's or a get's object and of a delivery's put.
    pub fn number(self) -> u8
        ensures { result ≡ refused_number self }
    {
        match self {
            Refusal::IllFormed => 31,
            Refusal::NoSuchSite => 32,
            Refusal::NoSuchObject | Refusal::NoSuchPut => 33,
            Refusal::Full => 34,
            Refusal::AlreadyKnown => 35,
            Refusal::NeedsUnmet => 36,
        }
    }
}

impl Store {
    // Of a put or a get.
    fn event_refused(&self, n: usize, site: u8, object: u8) -> Result<(), Refusal>
        ensures { number_in result ≡ ask (ltb site n) 32 (ask (leb object 31) 33 (ask (ltb self.now.count most_events) 34 0)) }
    {
        if n <= site as usize {
            Err(Refusal::NoSuchSite)
        } else if 31 < object {
            Err(Refusal::NoSuchObject)
        } else if layout::EVENTS <= self.count {
            Err(Refusal::Full)
        } else {
            Ok(())
        }
    }

    // Of a delivery.
    fn delivery_refused(&self, n: usize, s: usize, w: usize) -> Result<(), Refusal>
        requires { (n ≤ 8) × (self.now.count ≤ most_events) }
        ensures { number_in result ≡ ask (ltb s n) 32 (ask (ltb w self.now.count && has self.now.puts w) 33 (ask (not (has (row_in self.now.known s) w)) 35 (ask (reached 8 (λ i. get_or (row_in self.now.needs w) i 0) (λ i. get_or (row_in self.now.held s) i 0)) 36 0))) }
    {
        if n <= s {
            Err(Refusal::NoSuchSite)
        } else if self.count <= w || !rows::test(&self.puts, w) {
            Err(Refusal::NoSuchPut)
        } else if rows::test(&self.known[s], w) {
            Err(Refusal::AlreadyKnown)
        } else if !sites::reaches(self.site_at(s).counts, self.needs[w]) {
            Err(Refusal::NeedsUnmet)
        } else {
            Ok(())
        }
    }

    // A call is not asked of what events see, nor of their words.
    pub fn refused(&self, n: usize, c: Call) -> Result<(), Refusal>
        requires { (n ≤ 8) × (self.now.count ≤ most_events) }
        ensures { (t : Terms) (sees : List (List ℕ)) (events : List ℕ) → number_in result ≡ refusal n (store_in t (with_events self.now sees events)) (call_of c) }
    {
        match c {
            Call::Put { site, object, .. } => self.event_refused(n, site, object),
            Call::Get { site, object } => self.event_refused(n, site, object),
            Call::Deliver { event, site } => {
                self.delivery_refused(n, site as usize, event as usize)
            }
            Call::Close => Ok(()),
            Call::Malformed => Err(Refusal::IllFormed),
        }
    }
}
