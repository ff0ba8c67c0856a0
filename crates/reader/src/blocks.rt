// Question 4: the check sums of the blocks.
ghost use Rattle.std.specs.Prelude.{◌≡◌, not, ◌+◌, ◌*◌, ◌/◌, ◌≤◌, ◌<◌, length};
ghost use Rattle.rows.specs.Lowest.{found};
ghost use Rattle.record.specs.Blocks.{block_right};

use record::sums;
use rows::octets;

#[tactic(auto, unfolding(record::specs::Blocks::block_right))]
fn block_holds(s: &[u8], k: usize) -> bool
    requires k_in_bounds { 512 * k + 512 ≤ length s.now }
    requires k_bound { k < 65536 }
    ensures { result ≡ block_right s.now k }
{
    let check = sums::of_block(s, k);
    u64::from(octets::u16_at(s, 512 * k + 508)) == check.a
        && u64::from(octets::u16_at(s, 512 * k + 510)) == check.b
}

// The lowest block whose check is wrong, if there is any.
pub fn wrong_block(s: &[u8]) -> Option<usize>
    requires { length s.now / 512 ≤ 65536 }
    ensures { result ≡ found (length s.now / 512) (λ k. not (block_right s.now k)) }
{
    (0..s.len() / 512).find(|&k| !block_holds(s, k))
}
