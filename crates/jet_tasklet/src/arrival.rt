// One item that came in.
use jet_boxes::Port;
use jet_items::Item;

/// An item, with the port that it came through and the number of its queue among those of the port.
#[derive(Clone, Copy)]
pub struct Arrival {
    pub port: Port,
    pub queue: u32,
    pub item: Item,
}
