// The numbers that answers have in document 01 ("Refusals by number") and document 02; specs/Numbers.antt is the table. Functions, no `From`: the type is of
// another crate.
ghost use Rattle.std.specs.Prelude.{◌≡◌};
ghost use Rattle.model.specs.Numbers.{refusal_no, position_no};

use basics::refusal::Refusal;

// The refusal's number.
pub fn number_of(why: Refusal) -> u8
    ensures { result ≡ refusal_no why }
{
    match why {
        Refusal::NoCircuit => 1,
        Refusal::ReplyRoom => 2,
        Refusal::NotHello => 3,
        Refusal::BadLength => 4,
        Refusal::TlvPastEnd { .. } => 5,
        Refusal::BadTlv { .. } => 6,
        Refusal::WrongSource => 7,
        Refusal::WrongNeighbor => 8,
        Refusal::NoRoom => 9,
        Refusal::ClockBack => 10,
        Refusal::NotRestarting => 11,
        Refusal::BadSetting => 12,
        Refusal::NotBegun => 13,
        Refusal::TooLong => 14,
    }
}

// The position that it brings, in octets from 1; 0, and no `Option`, where it brings none, as the word for C has it.
pub fn position_of(why: Refusal) -> u16
    ensures { result ≡ position_no why }
{
    match why {
        Refusal::TlvPastEnd { position } | Refusal::BadTlv { position } => position,
        Refusal::NoCircuit
        | Refusal::ReplyRoom
        | Refusal::NotHello
        | Refusal::BadLength
        | Refusal::WrongSource
        | Refusal::WrongNeighbor
        | Refusal::NoRoom
        | Refusal::ClockBack
        | Refusal::NotRestarting
        | Refusal::BadSetting
        | Refusal::NotBegun
        | Refusal::TooLong => 0,
    }
}
