// The copies outstanding: pairs of a put and a site that lacks it.
ghost use Rattle.std.specs.Prelude.{◌≡◌, ◌≤◌};
ghost use Rattle.rows.specs.Count.{sum, how_many};
ghost use Rattle.rows.specs.Row.{only_first};
ghost use Rattle.record.specs.Layout.{most_events};
ghost use Rattle.calls.specs.Lent.{row_in};

use calls::lent::Store;

pub fn outstanding(n: usize, store: &Store) -> usize
    requires { n ≤ 8 }
    ensures { result ≡ sum n (λ s. how_many most_events (only_first store.now.puts (row_in store.now.known s))) }
{
    let mut all = 0;
    for known in &store.known[..n] {
        all += rows::count_difference(&store.puts, known);
    }
    all
}
