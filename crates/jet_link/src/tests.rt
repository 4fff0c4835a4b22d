// A link over which no items run: packets of idle notes, the three acknowledgements of a worked case, and two threads.
ghost use Rattle.jet_link.specs.Meeting.{IsLink, BothMet};
ghost use Rattle.jet_link.specs.Receiving.{SameRecv};
ghost use Rattle.jet_link.specs.Sending.{SameSend};
ghost use Rattle.jet_link.specs.Views.{send_view, recv_view};

use super::*;
use jet_items::Item;
use std::test::Fail;
use std::thread;
use std::thread::Threads;

// The least packet and window, and a grant that follows three times what was processed in two turns.
const SHAPE: LinkShape = LinkShape {
    packet: 256,
    window: 256,
    peak: 1024,
    multiplier: 3,
    period: 2,
    buffers: 5,
};

// Packs so many idle notes, of one byte each, into a packet of its own and pushes it, where a packet may begin.
fn send(sender: &mut SendEnd, notes: u32) -> bool
    ensures { SameSend (send_view sender.old) (send_view sender.new) }
{
    sender.take_acks();
    if sender.is_working() || !sender.begin() {
        return false;
    }
    for _ in 0..notes {
        if sender.is_working() {
            sender.write(&Item::Idle);
        }
    }
    !sender.put_back() && sender.is_working() && sender.push()
}

fn receive(receiver: &mut RecvEnd)
    ensures { SameRecv (recv_view receiver.old) (recv_view receiver.new) }
{
    if !receiver.holds() {
        receiver.receive();
    }
}

fn count(receiver: &mut RecvEnd)
    ensures { SameRecv (recv_view receiver.old) (recv_view receiver.new) }
{
    let may_count = receiver.part <= receiver.turns as u64 * 65536;
    if may_count && receiver.holds() && !receiver.is_whole() {
        receiver.finish();
    }
}

fn acknowledge(receiver: &mut RecvEnd)
    ensures { SameRecv (recv_view receiver.old) (recv_view receiver.new) }
{
    if receiver.is_whole() {
        receiver.acknowledge();
    }
}

// A turn of a receiver whose items all find room: a packet is taken, counted and acknowledged at once.
fn unload(receiver: &mut RecvEnd)
    ensures { SameRecv (recv_view receiver.old) (recv_view receiver.new) }
{
    receive(receiver);
    count(receiver);
    acknowledge(receiver);
    receiver.end_turn();
}

fn send_side(mut sender: SendEnd, notes: u32) -> (SendEnd, bool)
    ensures { SameSend (send_view sender) (send_view result.0) }
{
    let sent = send(&mut sender, notes);
    (sender, sent)
}

fn recv_side(mut receiver: RecvEnd) -> RecvEnd
    ensures { SameRecv (recv_view receiver) (recv_view result) }
{
    unload(&mut receiver);
    receiver
}

#[derive(Drop)]
struct Ends {
    sender: SendEnd,
    receiver: RecvEnd,
    sent: bool,
}

// Each end has a turn on a thread of its own, and then they meet.
fn across<R: Threads + Sync>(rt: &R, sender: SendEnd, receiver: RecvEnd, notes: u32) -> Ends
    requires { IsLink (send_view sender) (recv_view receiver) }
    ensures link { IsLink (send_view result.sender) (recv_view result.receiver) }
    ensures met { BothMet (send_view result.sender) (recv_view result.receiver) }
{
    let ((mut sender, sent), mut receiver) = thread::join(
        rt,
        move || send_side(sender, notes),
        move || recv_side(receiver),
    );
    let _ = meet(&mut sender, &mut receiver);
    Ends {
        sender,
        receiver,
        sent,
    }
}

// A packet of so many notes and two turns of the receiver, with meetings around them: the bytes acknowledged, the limit and
// the grant after them.
fn round(sender: &mut SendEnd, receiver: &mut RecvEnd, notes: u32) -> (u64, u64, u32)
    requires { IsLink (send_view sender.old) (recv_view receiver.old) }
    ensures { IsLink (send_view sender.new) (recv_view receiver.new) }
{
    send(sender, notes);
    let _ = meet(sender, receiver);
    unload(receiver);
    unload(receiver);
    let _ = meet(sender, receiver);
    sender.take_acks();
    let counts = sender.counts();
    (counts.acked, counts.limit, receiver.grant())
}

#[test]
fn the_grant_follows_what_was_processed(rt: HostRuntime) -> Result<(), Fail> {
    let (mut sender, mut receiver) = link(rt.alloc(), SHAPE)?;
    assert_eq!(rt; round(&mut sender, &mut receiver, 196), (196, 452, 588));
    assert_eq!(rt; round(&mut sender, &mut receiver, 98), (294, 882, 294));
    assert_eq!(rt; round(&mut sender, &mut receiver, 98), (392, 882, 294));
    assert_eq!(rt; round(&mut sender, &mut receiver, 0), (392, 882, 256));
    Ok(())
}

// The sender may send up to the window and what of one packet goes above it, and then nothing until an acknowledgement.
#[test]
fn a_packet_begins_below_the_limit_alone(rt: HostRuntime) -> Result<(), Fail> {
    let shape = LinkShape {
        window: 200,
        peak: 200,
        ..SHAPE
    };
    let (mut sender, mut receiver) = link(rt.alloc(), shape)?;
    assert_eq!(rt; send(&mut sender, 199), true);
    assert_eq!(rt; send(&mut sender, 256), true);
    assert_eq!(rt; send(&mut sender, 1), false);
    assert_eq!(rt; round(&mut sender, &mut receiver, 0), (455, 655, 200));
    assert_eq!(rt; send(&mut sender, 1), true);
    Ok(())
}

// Whatever the two threads find, after the third meeting the sender has the acknowledgement of the first packet.
#[test]
fn the_ends_cross_to_two_threads_and_back(rt: HostRuntime) -> Result<(), Fail> {
    let (sender, receiver) = link(rt.alloc(), SHAPE)?;
    let first = across(&rt, sender, receiver, 199);
    assert_eq!(rt; first.sent, true);
    let second = across(&rt, first.sender, first.receiver, 0);
    let third = across(&rt, second.sender, second.receiver, 0);
    let counts = third.sender.counts();
    assert_eq!(rt; (counts.sent, counts.acked), (199, 199));
    Ok(())
}
