// The record that is asked for: a circuit that is not there, or a level that is not enabled there, has none.
ghost use Rattle.std.specs.Prelude.{◌≡◌, ◌<◌, ◌≤◌, length};
ghost use Rattle.basics.specs.Mask.{circuits};
ghost use Rattle.own_words.specs.Words.{gateway_of};
ghost use Rattle.gateway.specs.Whole.{gateway_words};
ghost use Rattle.reasons.specs.Why.{stands_on, standing};

use adjacency::keys::key_on;
use adjacency::record::{Key, State};
use control::words::{CONTROL_WORDS, circuit_of};
use own_words::asks::asks_level;
use room::place::found;
use settings::circuit::Circuit;
use slots::slot::ROOM_WORDS;

fn standing_on(words: &[u64], n: u8, s: Circuit, key: Key) -> Option<State>
    requires { (length words.now ≡ gateway_words) × (0 < n) × (n ≤ circuits) }
    ensures { result ≡ stands_on (gateway_of words.now) n key (Some s) }
{
    let kind = s.kind;
    let levels = s.levels;
    let level = key.level;
    if asks_level(kind, levels, level) {
        let own = key_on(kind, key);
        let a = CONTROL_WORDS + ROOM_WORDS * (n as usize - 1);
        return found(&words[a..a + ROOM_WORDS], own);
    }
    None
}

// The record with a key on circuit n.
pub(crate) fn standing_in(words: &[u64], n: u8, key: Key) -> Option<State>
    requires { length words.now ≡ gateway_words }
    ensures { result ≡ standing (gateway_of words.now) n key }
{
    let Some(s) = circuit_of(&words[0..CONTROL_WORDS], n) else {
        return None;
    };
    standing_on(words, n, s, key)
}
