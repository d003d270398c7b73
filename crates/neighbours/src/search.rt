// The search for a MAC in the value of an IS Neighbours TLV (document 01, "TLVs read", type 6), a list of MACs of six
// octets each. No state; caller: lists.
//
// A value may hold 42 MACs and a PDU 242, so the search is made for speed: each MAC is compared whole, by one load of eight
// octets, the two before it and its own, and no list takes longer than another. Before the first MAC stand the TLV's type and length.
//
//   octets   at  at+1   at+2 .. at+7        the first is lowest, so the number is 65536 * (the MAC's octets) + (the two before):
//            two before    a MAC            it lies less than 65536 above 65536 * (our octets) where the MAC is ours
ghost use Rattle.std.specs.Prelude.{◌≡◌, ◌+◌, ◌<◌, ◌≤◌, length, ◌==◌};
ghost use Rattle.basics.specs.Octets.{big, little};
ghost use Rattle.neighbours.specs.Neighbours.{listed_in};
ghost use Rattle.tlv.specs.Tlv.{value_at, next_at};
ghost use Rattle.neighbours.specs.Search.{turned, SoughtAs, four_at, eight_at};

// Numbers from here on are longer than six octets.
const PAST_MAC: u64 = 281474976710656;

// Eight octets as a number, the first lowest: one load on the machine.
#[tactic(auto, unfolding(basics::specs::Octets::little))]
fn eight(s: &[u8], at: usize) -> u64
    requires { at + 7 < length s.now }
    ensures { result ≡ little 8 s.now at }
{
    u64::from_le_bytes([
        s[at],
        s[at + 1],
        s[at + 2],
        s[at + 3],
        s[at + 4],
        s[at + 5],
        s[at + 6],
        s[at + 7],
    ])
}

// The octets of a MAC as a number, the first lowest.
#[tactic(auto, unfolding(crate::specs::Search::turned, crate::specs::Search::digit))]
fn turn(mac: u64) -> u64
    ensures value { result ≡ turned 6 mac }
    ensures upper_bound { result < 281474976710656 }
{
    let [a, b, c, d, e, f, _, _] = mac.to_le_bytes();
    u64::from_be_bytes([0, 0, a, b, c, d, e, f])
}

// Whether the MAC stands two octets past a position; `start` is 65536 times its octets.
fn is_at(v: &[u8], at: usize, mac: u64, start: u64) -> bool
    requires { (at + 7 < length v.now) × SoughtAs mac start }
    ensures { result ≡ (big 6 v.now (at + 2) == mac) }
{
    eight(v, at).wrapping_sub(start) < 65536
}

// Whether it is one of the four MACs there.
#[tactic(auto, unfolding(crate::specs::Search::four_at))]
fn one_of_four(v: &[u8], at: usize, mac: u64, start: u64) -> bool
    requires { (at + 25 < length v.now) × SoughtAs mac start }
    ensures { result ≡ four_at v.now at mac }
{
    is_at(v, at, mac, start)
        || is_at(v, at + 6, mac, start)
        || is_at(v, at + 12, mac, start)
        || is_at(v, at + 18, mac, start)
}

// Whether it is one of the eight MACs there.
#[tactic(auto, unfolding(crate::specs::Search::eight_at))]
fn one_of_eight(v: &[u8], at: usize, mac: u64, start: u64) -> bool
    requires { (at + 49 < length v.now) × SoughtAs mac start }
    ensures { result ≡ eight_at v.now at mac }
{
    one_of_four(v, at, mac, start) || one_of_four(v, at + 24, mac, start)
}

// Whether it is one of the MACs of the TLV from `at` to `next`, by eights and then by ones. It goes by an index, since each load takes the
// two octets before a MAC too, and chunks of six octets would leave them out.
fn is_among(pdu: &[u8], at: usize, next: usize, mac: u64, start: u64) -> bool
    requires { (next ≡ next_at pdu.now at) × (next ≤ length pdu.now) × SoughtAs mac start }
    ensures { result ≡ listed_in mac (value_at pdu.now at) }
{
    let mut i = at;
    while 50 <= next - i {
        if one_of_eight(pdu, i, mac, start) {
            return true;
        }
        i += 48;
    }
    while 8 <= next - i {
        if is_at(pdu, i, mac, start) {
            return true;
        }
        i += 6;
    }
    false
}

// Whether the MAC is one of those in the value of the TLV from `at` to `next`. Octets past the last whole six are no MAC.
pub fn is_listed_in(pdu: &[u8], at: usize, next: usize, mac: u64) -> bool
    requires { (next ≡ next_at pdu.now at) × (next ≤ length pdu.now) }
    ensures { result ≡ listed_in mac (value_at pdu.now at) }
{
    mac < PAST_MAC && is_among(pdu, at, next, mac, 65536 * turn(mac))
}
