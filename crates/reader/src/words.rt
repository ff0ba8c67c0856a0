// A record as 64-bit words, from which judges read fields.
ghost use Rattle.std.specs.Prelude.{◌≡◌, ◌++◌, ◌+◌, ◌*◌, ◌≤◌, length, drop};
ghost use Rattle.record.specs.Layout.{edition_of, head_length, terms_length};
ghost use Rattle.record.specs.Encode.{blocks_for};
ghost use Rattle.record.specs.Words.{slot_words, terms_words};

use super::header;
use record::layout;
use rows::octets;

// w words from byte `off` of each of the first n slots, all among the fields that every edition has.
pub fn load(s: &[u8], n: usize, off: usize, w: usize, out: &mut [u64])
    requires n_in_bounds { 512 * blocks_for (edition_of s.now) n ≤ length s.now }
    requires w_bound { off + 8 * w ≤ 8 * head_length }
    requires w_in_bounds { n * w ≤ length out.old }
    ensures { out.new ≡ slot_words (edition_of s.now) off w s.now n ++ drop (n * w) out.old }
{
    let ed = header::edition(s);
    let mut slot = 512;
    for e in 0..n {
        let at = e * w;
        octets::load(&mut out[at..at + w], s, slot + off);
        slot = layout::next_slot(ed, slot);
    }
}

// What block 0 says beside count and sites, as words.
#[tactic(auto, unfolding(record::specs::Words::terms_words))]
pub fn load_terms(s: &[u8], out: &mut [u64])
    requires { (512 ≤ length s.now) × (length out.old ≡ terms_length) }
    ensures { out.new ≡ terms_words s.now }
{
    octets::load(out, s, 8);
}
