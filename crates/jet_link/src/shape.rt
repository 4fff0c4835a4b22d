// The numbers of a link, which do not change while it lives.

/// How a link is made.
#[derive(Clone, Copy)]
pub struct LinkShape {
    /// The most bytes of one packet, 256 to 65536, so that any item fits into an empty one.
    pub packet: u32,
    /// The first and the least grant in bytes, 1 to 16777216.
    pub window: u32,
    /// The greatest grant in bytes, from the window to 16777216.
    pub peak: u32,
    /// What the bytes of a period are multiplied by for the next grant, 1 to 16.
    pub multiplier: u32,
    /// The turns of a receiver that make a period, 1 to 1024.
    pub period: u32,
    /// The buffers, and the slots of each of the two rings, 4 to 65536.
    pub buffers: u32,
}
