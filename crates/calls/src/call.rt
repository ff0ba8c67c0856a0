// One call: refused, or done.
ghost use Rattle.std.specs.Prelude.{◌≤◌};
ghost use Rattle.record.specs.Encode.{little_bytes};
ghost use Rattle.record.specs.Terms.{Terms};
ghost use Rattle.calls.specs.Mirror.{call_of};
ghost use Rattle.calls.specs.Lent.{Stands, Stand};
ghost use Rattle.calls.specs.Done.{Called};

use super::lent::Store;
use super::make;
use super::script::Call;

impl Store {
    // The result is the call's answer.
    pub fn call(&mut self, n: usize, c: Call) -> [u8; 8]
        requires n_bound { n ≤ 8 }
        requires stand { Stand n self.old }
        ensures { (t : Terms) → Stands n t self.old → Called n t (call_of c) self.old self.new result }
    {
        self.answered(n, c).to_le_bytes()
    }

    // The same, its bytes as one number.
    fn answered(&mut self, n: usize, c: Call) -> u64
        requires n_bound { n ≤ 8 }
        requires stand { Stand n self.old }
        ensures { (t : Terms) → Stands n t self.old → Called n t (call_of c) self.old self.new (little_bytes 8 result) }
    {
        if let Err(refusal) = self.refused(n, c) {
            return refusal.number() as u64;
        }
        match c {
            Call::Put {
                site,
                object,
                value,
            } => self.put(site, object, value),
            Call::Get { site, object } => self.get(site, object),
            Call::Deliver { event, site } => {
                self.deliver(site as usize, event as usize);
                0
            }
            Call::Close => make::closed(self.close(n)),
            Call::Malformed => unreachable!(),
        }
    }
}
