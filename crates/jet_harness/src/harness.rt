// Making all rings, and handing out their ends.
ghost use Rattle.std.specs.Prelude.{◌≡◌, not, map, filter, IfOk};
ghost use Rattle.jet_harness.specs.Channels.{same_giver, same_taker};

use crate::channel::{same_giver, same_taker};
use crate::{Channel, Giver};
use jet_items::{Item, NoMemory};
use jet_layout::{Layout, Port, Taker, Wire};
use jet_ring::{Rx, Tx, ring};
use std::alloc::Global;
use std::mem;

// An end that sends, and what it is for.
#[derive(Drop)]
struct GiverEnd {
    giver: Giver,
    tx: Tx<Item>,
}

// An end that receives, and what it is for.
#[derive(Drop)]
struct TakerEnd {
    taker: Taker,
    rx: Rx<Item>,
}

/// The ends of rings, each for its giver or its taker.
#[derive(Drop)]
pub struct Harness {
    txs: Vec<GiverEnd>,
    rxs: Vec<TakerEnd>,
}

impl Harness {
    ghost use Rattle.std.specs.Prelude.{◌≡◌, ◌≢◌, ◌≤◌, [], ◌∷◌, List, map, OnOk, OnErr, IfOk};
    ghost use Rattle.jet_ring.specs.Ring.{Ring, tx_view, rx_view};
    ghost use Rattle.jet_harness.specs.declared.channel.Giver.{Giver};
    ghost use Rattle.jet_layout.specs.declared.wire.Taker.{Taker};
    ghost use Rattle.jet_harness.specs.Channels.{channels, wire_channel, file_channel};
    ghost use Rattle.jet_harness.specs.Harness.{txs_of, rxs_of, Joins};
    ghost use Rattle.jet_harness.specs.inner.Growing.{Adds};

    /// Makes the ring of each wire and each file of a layout, all with so many slots, 2 to 65536. It fails only for want of
    /// memory.
    pub fn new(alloc: Global, layout: &Layout, capacity: usize) -> Result<Harness, NoMemory>
        requires { (2 ≤ capacity) × (capacity ≤ 65536) }
        ensures { IfOk result (λ h. (rings : List Ring) × Joins (channels layout.now) capacity rings h) }
    {
        let mut harness = Harness {
            txs: Vec::new(alloc),
            rxs: Vec::new(alloc),
        };
        harness.add_wires(alloc, layout.wires.items(), capacity)?;
        harness.add_files(alloc, layout.files.items(), capacity)?;
        Ok(harness)
    }

    /// Takes out the ends with which a giver sends, in the order of their channels. It fails only for want of memory, and
    /// then no giver has ends any more.
    pub fn take_txs(&mut self, alloc: Global, giver: Giver) -> Result<Vec<Tx<Item>>, NoMemory>
        ensures taken { IfOk result (λ txs. map tx_view txs.items ≡ txs_of self.old giver) }
        ensures gone { OnOk result (txs_of self.new giver ≡ []) }
        ensures others { OnOk result ((g : Giver) → g ≢ giver → txs_of self.new g ≡ txs_of self.old g) }
        ensures lost { OnErr result ((g : Giver) → txs_of self.new g ≡ []) }
        ensures takers { (t : Taker) → rxs_of self.new t ≡ rxs_of self.old t }
    {
        let ends = mem::replace(&mut self.txs, Vec::new(alloc));
        let (taken, rest) = part_txs(alloc, ends, giver)?;
        self.txs = rest;
        Ok(taken)
    }

    /// Takes out the ends with which a taker receives, in the order of their channels. It fails only for want of memory, and
    /// then no taker has ends any more.
    pub fn take_rxs(&mut self, alloc: Global, taker: Taker) -> Result<Vec<Rx<Item>>, NoMemory>
        ensures taken { IfOk result (λ rxs. map rx_view rxs.items ≡ rxs_of self.old taker) }
        ensures gone { OnOk result (rxs_of self.new taker ≡ []) }
        ensures others { OnOk result ((t : Taker) → t ≢ taker → rxs_of self.new t ≡ rxs_of self.old t) }
        ensures lost { OnErr result ((t : Taker) → rxs_of self.new t ≡ []) }
        ensures givers { (g : Giver) → txs_of self.new g ≡ txs_of self.old g }
    {
        let ends = mem::replace(&mut self.rxs, Vec::new(alloc));
        let (taken, rest) = part_rxs(alloc, ends, taker)?;
        self.rxs = rest;
        Ok(taken)
    }

    // Adds the rings of wires.
    fn add_wires(&mut self, alloc: Global, wires: &[Wire], capacity: usize) -> Result<(), NoMemory>
        requires { (2 ≤ capacity) × (capacity ≤ 65536) }
        ensures { OnOk result (Adds (map wire_channel wires.now) capacity self.old self.new) }
    {
        for wire in wires {
            self.add(alloc, Channel::of_wire(*wire), capacity)?;
        }
        Ok(())
    }

    // Adds the rings of files, each by the input that takes its items.
    fn add_files(&mut self, alloc: Global, files: &[Port], capacity: usize) -> Result<(), NoMemory>
        requires { (2 ≤ capacity) × (capacity ≤ 65536) }
        ensures { OnOk result (Adds (map file_channel files.now) capacity self.old self.new) }
    {
        for port in files {
            self.add(alloc, Channel::of_file(*port), capacity)?;
        }
        Ok(())
    }

    // Makes a ring, and adds its ends.
    fn add(&mut self, alloc: Global, channel: Channel, capacity: usize) -> Result<(), NoMemory>
        requires { (2 ≤ capacity) × (capacity ≤ 65536) }
        ensures { OnOk result (Adds (channel ∷ []) capacity self.old self.new) }
    {
        let Channel { giver, taker } = channel;
        let (tx, rx) = ring(alloc, capacity)?;
        self.txs.push(GiverEnd { giver, tx })?;
        self.rxs.push(TakerEnd { taker, rx })?;
        Ok(())
    }
}

// Parts ends: those of one giver, and the others.
fn part_txs(
    alloc: Global,
    ends: Vec<GiverEnd>,
    giver: Giver,
) -> Result<(Vec<Tx<Item>>, Vec<GiverEnd>), NoMemory>
    ensures { IfOk result (λ r. (r.0.items ≡ map (λ e. e.tx) (filter (λ e. same_giver giver e.giver) ends.items)) × (r.1.items ≡ filter (λ e. not (same_giver giver e.giver)) ends.items)) }
{
    let mut taken = Vec::new(alloc);
    let mut rest = Vec::new(alloc);
    for end in ends {
        if same_giver(giver, end.giver) {
            taken.push(end.tx)?;
        } else {
            rest.push(end)?;
        }
    }
    Ok((taken, rest))
}

// Parts ends: those of one taker, and the others.
fn part_rxs(
    alloc: Global,
    ends: Vec<TakerEnd>,
    taker: Taker,
) -> Result<(Vec<Rx<Item>>, Vec<TakerEnd>), NoMemory>
    ensures { IfOk result (λ r. (r.0.items ≡ map (λ e. e.rx) (filter (λ e. same_taker taker e.taker) ends.items)) × (r.1.items ≡ filter (λ e. not (same_taker taker e.taker)) ends.items)) }
{
    let mut taken = Vec::new(alloc);
    let mut rest = Vec::new(alloc);
    for end in ends {
        if same_taker(taker, end.taker) {
            taken.push(end.rx)?;
        } else {
            rest.push(end)?;
        }
    }
    Ok((taken, rest))
}
