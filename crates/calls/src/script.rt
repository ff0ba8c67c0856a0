// Calls in the bytes of a script.
ghost use Rattle.std.specs.Prelude.{◌≡◌, ◌+◌, ◌≤◌, length};
ghost use Rattle.store.specs.Calls.{call_at};
ghost use Rattle.calls.specs.Mirror.{call_of};

use rows::octets;

// A call as it was decoded.
#[derive(Clone, Copy)]
pub enum Call {
    Put { site: u8, object: u8, value: u32 },
    Get { site: u8, object: u8 },
    // Put `event` to a site.
    Deliver { event: u16, site: u8 },
    Close,
    Malformed,
}

// The call's eight bytes are read as one word. A close and a put are told by themselves: over four kinds the match compiles to a jump by a table, which is slower,
// and over three it asks for a put last.
pub fn asked_at(s: &[u8], at: usize) -> Call
    requires { at + 8 ≤ length s.now }
    ensures { call_of result ≡ call_at s.now at }
{
    let x = octets::u64_at(s, at);
    if x == 4 {
        return Call::Close;
    }
    let kind = x % 0x100;
    let site = (x / 0x100 % 0x100) as u8;
    if kind == 1 {
        return if x / 0x100_0000 % 0x100 == 0 {
            Call::Put {
                site,
                object: (x / 0x1_0000 % 0x100) as u8,
                value: (x / 0x1_0000_0000) as u32,
            }
        } else {
            Call::Malformed
        };
    }
    match kind {
        2 if x / 0x100_0000 == 0 => Call::Get {
            site,
            object: (x / 0x1_0000 % 0x100) as u8,
        },
        3 if x / 0x1_0000 % 0x1_0000 == 0 && x / 0x1_0000_0000_0000 == 0 => Call::Deliver {
            event: (x / 0x1_0000_0000) as u16,
            site,
        },
        _ => Call::Malformed,
    }
}
