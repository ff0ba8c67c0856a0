// The two check sums of a block.
ghost use Rattle.std.specs.Prelude.{◌≡◌, ◌+◌, ◌*◌, ◌≤◌, ◌<◌, ◌%◌, length};
ghost use Rattle.record.specs.Blocks.{sum_a, sum_b};

use rows::octets;

#[derive(Clone, Copy)]
pub struct Check {
    pub a: u64,
    pub b: u64,
}

// Below 65521 there is nothing to divide. The test stands between A and B in the compiled code too, which keeps each lane's place in one vector.
fn remainder(x: u32) -> u64
    ensures { result ≡ x % 65521 }
{
    if x < 65521 {
        u64::from(x)
    } else {
        u64::from(x) % 65521
    }
}

// A and B of the 254 words of the block that starts at 512 * k. Of the first 252, word 4 * r + l goes to lane l, and the four lanes are
// added side by side: a0 to a3 are their sums, b0 to b3 the sums of those before each row. The remainders are taken once, at the end:
// all stays below 2^32 until then. Eight variables and not two arrays: lanes of an array compile to code that takes more than twice as long.
pub fn of_block(s: &[u8], k: usize) -> Check
    requires k_in_bounds { 512 * k + 512 ≤ length s.now }
    requires k_bound { k < 65536 }
    ensures { (result.a ≡ sum_a 254 s.now k) × (result.b ≡ sum_b 254 s.now k) }
{
    let at = 512 * k;
    let first = k as u32 + 1;
    let mut a0: u32 = 0;
    let mut a1: u32 = 0;
    let mut a2: u32 = 0;
    let mut a3: u32 = 0;
    let mut b0: u32 = 0;
    let mut b1: u32 = 0;
    let mut b2: u32 = 0;
    let mut b3: u32 = 0;
    for r in 0..63 {
        let row = at + 8 * r;
        b0 += a0;
        b1 += a1;
        b2 += a2;
        b3 += a3;
        a0 += u32::from(octets::u16_at(s, row));
        a1 += u32::from(octets::u16_at(s, row + 2));
        a2 += u32::from(octets::u16_at(s, row + 4));
        a3 += u32::from(octets::u16_at(s, row + 6));
    }
    let before = first + (a0 + a1 + a2 + a3) + u32::from(octets::u16_at(s, at + 504));
    let a = before + u32::from(octets::u16_at(s, at + 506));
    let rest = remainder(a);
    let b = 252 * first + 4 * (b0 + b1 + b2 + b3) + (4 * a0 + 3 * a1 + 2 * a2 + a3) + before + a;
    Check {
        a: rest,
        b: remainder(b),
    }
}
