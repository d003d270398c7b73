// The lengths of T1 and T2 in seconds, and T1's tries, N (document 01, "What the gateway holds").
#[derive(Clone, Copy)]
pub struct Lengths {
    pub t1: u16,
    pub t2: u16,
    pub tries: u8,
}
