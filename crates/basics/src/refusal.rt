// Why a call is refused, in the order of the numbers (document 01, "Refusals by number"; document 02, W-205), which themselves stand in crate
// model. 5 and 6 bring a position in the frame, counted in octets from 1 (document 02, W-206).
#[derive(Clone, Copy)]
pub enum Refusal {
    NoCircuit,
    ReplyRoom,
    NotHello,
    BadLength,
    TlvPastEnd { position: u16 },
    BadTlv { position: u16 },
    WrongSource,
    WrongNeighbor,
    NoRoom,
    ClockBack,
    NotRestarting,
    BadSetting,
    NotBegun,
    TooLong,
}
