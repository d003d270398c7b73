// What a record is known by: on a LAN level, System ID and source MAC, on P2P the System ID (document 01, "What the gateway holds").
ghost use Rattle.std.specs.Prelude.{◌≡◌};
ghost use Rattle.adjacency.specs.Keys.{key_on, level_in, key_in};

use crate::record::Key;
use basics::kind::CircuitKind;
use hello::read::{Hello, Link};

// The key on a circuit of a kind: on P2P the level and the MAC count for nothing.
pub fn key_on(kind: CircuitKind, key: Key) -> Key
    ensures { result ≡ key_on kind key }
{
    match kind {
        CircuitKind::Lan => key,
        CircuitKind::P2p => Key {
            level: 0,
            system: key.system,
            mac: 0,
        },
    }
}

// The level of a LAN frame; a P2P frame has none.
fn level_in(link: Link) -> u8
    ensures { result ≡ level_in link }
{
    match link {
        Link::Lan { level, .. } => level,
        Link::P2p(_) => 0,
    }
}

// The key of a frame's record, by its source MAC.
pub fn key_in(kind: CircuitKind, mac: u64, frame: Hello) -> Key
    ensures { result ≡ key_in kind mac frame }
{
    key_on(
        kind,
        Key {
            level: level_in(frame.link),
            system: frame.system,
            mac,
        },
    )
}
