//! Distributed edges: what runs between the rings of one member and those of another.
//!
//! A sender takes the items of its queues, packs data as it came, the marks of all queues together and one Done into
//! packets, and a receiver on the other member gives them to its router. What it gave is at every meeting of the two a
//! front of what was sent (`receivers_give_what_was_sent`), and all of it at the end (`links_end`). What a sender passes on
//! is in order where its queues are, its last mark is the least of theirs, and its data is theirs (`laws`). How a sender
//! packs and when it waits stands in `sender`, how a receiver unloads in `receiver`; each is a tasklet whose turn never
//! waits, and after a turn in which nothing moved each says why (`SenderRests`, `ReceiverRests`); turns in a row leave what
//! each of them leaves (`turns`). The bytes on the way are bounded by the link below (`jet_link`).
#![tactic(auto)]

mod laws;
mod lend;
mod meetings;
mod note;
mod progress;
mod receiver;
mod sender;
mod turns;

pub use jet_link::{Counts, LinkShape, link};
pub use jet_spell::{PacketFault, read_item, read_packet, write_item};
pub use meetings::{
    links_end, links_move_little, receivers_give_what_was_sent, refresh_link,
    senders_send_what_came,
};
pub use progress::Progress;
pub use receiver::Receiver;
pub use sender::Sender;
pub use turns::{receivers_turn_in_a_row, senders_turn_in_a_row};

#[cfg(test)]
mod tests;
