// Orders for hellos (document 01, "Timers while Restarting"; document 02, W-201 and W-202; RFC 8706, 3.3).
ghost use Rattle.std.specs.Prelude.{◌≡◌};
ghost use Rattle.timers.specs.Hellos.{hello_bits, ordering, hellos_of, again_flags, begin_hello};

use basics::places::any_place;
use restart_tlv::flags::Flags;
use settings::mode::{Mode, is_starting};
use timer_parts::t1::{T1, does_begin};

// For each T1 of a mask, with flags; without any where there is none. On a LAN the hello is that of the T1's level, on P2P the one hello.
#[derive(Clone, Copy)]
pub struct HelloOrders {
    pub t1s: u16,
    pub flags: Flags,
}

// On the circuit of a frame, on a LAN of its level; Suppress: with SA, and no other flag.
#[derive(Clone, Copy)]
pub enum HelloOrder {
    Nothing,
    Suppress,
}

// A hello with these flags for each T1 of a mask.
#[tactic(auto, unfolding(crate::specs::Hellos::ordering))]
pub fn order_hellos(t1s: u16, flags: Flags) -> HelloOrders
    ensures { hellos_of result ≡ ordering flags.bits (hello_bits t1s) }
{
    HelloOrders {
        t1s,
        flags: if any_place(t1s) { flags } else { Flags::NONE },
    }
}

// The flags of the hello that a T1 orders at its expiries.
pub fn again_flags(mode: Mode) -> Flags
    ensures { result.bits ≡ again_flags mode }
{
    if is_starting(mode) {
        Flags::RR.with(Flags::SA)
    } else {
        Flags::RR
    }
}

// The hello that a T1 begins with, where it does begin.
#[tactic(auto, unfolding(crate::specs::Hellos::begin_hello))]
pub fn begin_hello(up: bool, t: T1) -> HelloOrder
    ensures { result ≡ begin_hello up t }
{
    if does_begin(up, t) {
        HelloOrder::Suppress
    } else {
        HelloOrder::Nothing
    }
}
