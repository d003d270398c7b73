// The flags of the Restart TLV (RFC 8706, 3.2; document 01, "TLVs read"): a set, built and tested here alone.
ghost use Rattle.std.specs.Prelude.{◌≡◌};
ghost use Rattle.basics.specs.Octets.{has_bits};
ghost use Rattle.restart_tlv.specs.Flags.{without, counted, invalid, needs_neighbor, needs_time};
ghost use Rattle.std.specs.Int.Bits.{bit_or};

use basics::octets::has_bits;

#[derive(Clone, Copy)]
pub struct Flags {
    pub bits: u8,
}

impl Flags {
    pub const NONE: Flags = Flags { bits: 0 };

    // Restart Request.
    pub const RR: Flags = Flags { bits: 1 };

    // Restart Acknowledgement.
    pub const RA: Flags = Flags { bits: 2 };

    // Suppress adjacency advertisement.
    pub const SA: Flags = Flags { bits: 4 };

    // Restart is planned.
    pub const PR: Flags = Flags { bits: 8 };

    // Planned restart acknowledgement.
    pub const PA: Flags = Flags { bits: 16 };

    // Whether each flag of `other` is set.
    pub fn has(self, other: Flags) -> bool
        ensures { result ≡ has_bits self.bits other.bits }
    {
        has_bits(self.bits, other.bits)
    }

    // The flags of both.
    pub fn with(self, other: Flags) -> Flags
        ensures { result.bits ≡ bit_or self.bits other.bits }
    {
        Flags {
            bits: self.bits | other.bits,
        }
    }

    // The flags but for those of `other`.
    #[tactic(auto, unfolding(crate::specs::Flags::without))]
    pub fn minus(self, other: Flags) -> Flags
        ensures { result.bits ≡ without self.bits other.bits }
    {
        Flags {
            bits: self.bits - (self.bits & other.bits),
        }
    }

    // The flags that count, of an octet as it came.
    #[tactic(auto, unfolding(crate::specs::Flags::counted))]
    pub fn counted_of(octet: u8) -> Flags
        ensures { result.bits ≡ counted octet }
    {
        let known = Flags { bits: octet % 32 };
        if has_bits(octet, Flags::RR.bits) {
            return known.minus(Flags::PR);
        }
        known
    }

    // Whether the flags may not stand together.
    #[tactic(auto, unfolding(crate::specs::Flags::invalid))]
    pub fn is_invalid(self) -> bool
        ensures { result ≡ invalid self.bits }
    {
        1 < self.bits.count_ones() && self.bits != Flags::RR.with(Flags::SA).bits
    }

    // Whether they ask for the Restarting Neighbor System ID.
    #[tactic(auto, unfolding(crate::specs::Flags::needs_neighbor))]
    pub fn needs_neighbor(self) -> bool
        ensures { result ≡ needs_neighbor self.bits }
    {
        self.has(Flags::RA) || self.has(Flags::PA)
    }

    // Whether they ask for the Remaining Time.
    #[tactic(auto, unfolding(crate::specs::Flags::needs_time))]
    pub fn needs_time(self) -> bool
        ensures { result ≡ needs_time self.bits }
    {
        self.needs_neighbor() || self.has(Flags::PR)
    }
}
