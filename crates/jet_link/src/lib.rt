//! The two ends of a link between members: packets of bytes one way, acknowledgements and their buffers back.
//!
//! A link bounds the bytes that are on the way. Its sender begins a packet only while the bytes sent are below the limit,
//! which the receiver raises as it processes: each acknowledgement carries the bytes processed and a new limit, at most
//! the `peak` ahead. The grant by which the limit goes ahead follows what the receiver processed in the last period, held
//! between `window` and `peak`. So at most `peak` and one packet are on the way, whatever the threads do in between.
//!
//! Each end alone keeps what its own record says in every state (`SendsRight` and `RecvsRight` of `specs/Link.antt`), and
//! where the two meet, that gives the definition of links as a whole (`LinkMet`). It stands on `jet_ring` and `jet_pool`
//! by their contracts alone.
#![tactic(auto)]

mod ack;
mod counts;
mod laws;
mod meeting;
mod new_link;
mod packet;
mod recv_end;
mod send_end;
mod shape;

pub use ack::Ack;
pub use counts::Counts;
pub use laws::acknowledged_links_are_empty;
pub use meeting::meet;
pub use new_link::link;
pub use packet::Packet;
pub use recv_end::RecvEnd;
pub use send_end::SendEnd;
pub use shape::LinkShape;

#[cfg(test)]
mod tests;
