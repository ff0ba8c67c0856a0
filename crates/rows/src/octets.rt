// Rows of bits in bytes, and little-endian numbers.
ghost use Rattle.std.specs.Prelude.{◌≡◌, ◌+◌, ◌*◌, ◌/◌, ◌<◌, ◌≤◌, length, take, drop};
ghost use Rattle.rows.specs.Octets.{has_byte, little, words};

// As `test` of a row, of bytes from `base` on: a trait over both would be longer than the two.
pub fn test(s: &[u8], base: usize, b: usize) -> bool
    requires { base + b / 8 < length s.now }
    ensures { result ≡ has_byte s.now base b }
{
    (s[base + b / 8] >> (b % 8)) & 1 == 1
}

fn bytes_at<const N: usize>(s: &[u8], at: usize) -> [u8; N]
    requires { at + N ≤ length s.now }
    ensures { result ≡ take N (drop at s.now) }
{
    let mut bytes = [0; N];
    bytes.copy_from_slice(&s[at..at + N]);
    bytes
}

// A line for each width: no trait has `from_le_bytes`.
pub fn u16_at(s: &[u8], at: usize) -> u16
    requires { at + 2 ≤ length s.now }
    ensures { result ≡ little 2 s.now at }
{
    u16::from_le_bytes(bytes_at(s, at))
}

pub fn u32_at(s: &[u8], at: usize) -> u32
    requires { at + 4 ≤ length s.now }
    ensures { result ≡ little 4 s.now at }
{
    u32::from_le_bytes(bytes_at(s, at))
}

pub fn u64_at(s: &[u8], at: usize) -> u64
    requires { at + 8 ≤ length s.now }
    ensures { result ≡ little 8 s.now at }
{
    u64::from_le_bytes(bytes_at(s, at))
}

// The words of a byte row.
pub fn load(row: &mut [u64], s: &[u8], at: usize)
    requires { at + 8 * length row.old ≤ length s.now }
    ensures { row.new ≡ words (length row.old) s.now at }
{
    for (i, word) in row.iter_mut().enumerate() {
        *word = u64_at(s, at + 8 * i);
    }
}
