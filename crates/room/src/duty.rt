// Line 1's order of CSNPs and flooding marks, of the room as the frame left it (document 01, "Marks and holding time").
ghost use Rattle.std.specs.Prelude.{◌≡◌, length};
ghost use Rattle.slots.specs.Slots.{table_of, room_words};
ghost use Rattle.adjacency.specs.Keys.{level_in};
ghost use Rattle.room.specs.Accept.{csnps_in};

use crate::search::is_outranked;
use adjacency::duty::Rank;
use adjacency::marks::Line;
use basics::levels::{Levels, only_level};
use hello::read::Link;

// Line 1's order. On P2P it is given always, so only on a LAN is the room looked through. Our rank is at the frame's level.
fn line_one_csnps(words: &[u64], rank: Rank, levels: Levels, link: Link) -> Option<Levels>
    requires { (length words.now ≡ room_words) × (rank.level ≡ level_in link) }
    ensures { result ≡ csnps_in rank Line.One levels link (table_of words.now) }
{
    let Link::Lan {
        level: _,
        priority: _,
        listed: _,
    } = link
    else {
        return Some(levels);
    };
    if is_outranked(words, rank) {
        return None;
    }
    Some(only_level(rank.level))
}

// Of the lines only line 1 orders.
pub fn csnps_in(words: &[u64], rank: Rank, line: Line, levels: Levels, link: Link) -> Option<Levels>
    requires { (length words.now ≡ room_words) × (rank.level ≡ level_in link) }
    ensures { result ≡ csnps_in rank line levels link (table_of words.now) }
{
    match line {
        Line::One => line_one_csnps(words, rank, levels, link),
        Line::Two => None,
        Line::Three => None,
        Line::Four => None,
        Line::Five => None,
    }
}
