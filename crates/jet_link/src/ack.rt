// What passes through the ring of acknowledgements.
use jet_pool::Buf;

/// The buffer of a packet whose items were all given, with the two counts of the receiver then: the bytes given so far,
/// and the bytes that may be sent in all. Both are kept modulo 2^64.
#[derive(Drop)]
pub struct Ack {
    pub(crate) buf: Buf,
    pub(crate) processed: u64,
    pub(crate) offer: u64,
}
