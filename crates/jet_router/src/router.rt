// A router keeps no item. It keeps which destinations have had the item in hand, and so may be given that item any
// number of times: a destination that has it is left alone. Data for one destination is sent whole or not at all, so it
// is never in hand.
ghost use Rattle.std.specs.Prelude.{◌≡◌, ◌≤◌, ◌<◌, ◌^◌, ℕ, vec_len, slice_index, map, IfOk};
ghost use Rattle.jet_ring.specs.Ring.{tx_view};
ghost use Rattle.jet_router.specs.Dest.{dest_view, fresh};
ghost use Rattle.jet_router.specs.declared.aim.Route.TheVariants.{Partitioned};

use crate::Given;
use crate::aim::{Aim, Route, aim_for, goes_to_each};
use crate::dest::Dest;
use jet_items::{Item, NoMemory};
use jet_ring::{Rx, Tx, refresh};
use std::alloc::Global;

/// Gives the items of one producer to its destinations.
#[derive(Drop)]
pub struct Router {
    route: Route,
    // For a partitioned route the destination of each partition, and else empty.
    table: Vec<u32>,
    dests: Vec<Dest>,
    // Whether an item is in hand that not each destination has had. The flags of the destinations hold only then.
    busy: bool,
    // The destination that data for any one is offered to first.
    turn: usize,
    ghost few: { vec_len dests < 2 ^ 32 },
    ghost inside: { turn ≤ vec_len dests },
    ghost aimed: { (k : ℕ) → k < vec_len table → slice_index table.items k < vec_len dests },
    ghost full: { route ≡ Partitioned → vec_len table ≡ 271 },
}

impl Router {
    ghost use Rattle.std.specs.Prelude.{◌≡◌, ◌≤◌, ◌<◌, ◌^◌, ◌+◌, ◌++◌, ◌↔◌, ℕ, List, get_or, [], ◌∷◌, map, false, true, vec_len, length, slice_get, slice_index, IfOk, IsOk, IsTrue, IsFalse, All, set};
    ghost use Rattle.std.specs.Borrow.{sem};
    ghost use mathlib.Core.List.{IsPrefix};
    ghost use Rattle.jet_ring.specs.Ring as ring;
    ghost use Rattle.jet_router.specs.Lending.{LendsTx, with_tx};
    ghost use Rattle.jet_ring.specs.declared.ends.Tx.{Tx};
    ghost use Rattle.jet_items.specs.declared.item.Item.{Item};
    ghost use Rattle.jet_router.specs.Dest.{served, unserved, starts};
    ghost use Rattle.jet_router.specs.Router.{view, free_count, txs, rings, sents, frees, reaches, aim as aim_at, IsInHand, SentTo, TriedFirst, NoneFree, IsNew, SameRouter, Refreshed};
    ghost use Rattle.jet_router.specs.Gives.{Gives};
    ghost use Rattle.jet_router.specs.Deals.{Deal, Dealt, DealtAfter, IsFull};
    ghost use Rattle.jet_router.specs.declared.Given.TheVariants.{All as GivenAll, Again};
    ghost use Rattle.jet_router.specs.declared.aim.Aim.TheVariants.{Each, Any, Only};

    /// A router that gives each data item to one destination that takes it.
    pub fn unicast(alloc: Global, dests: Vec<Tx<Item>>) -> Result<Router, NoMemory>
        requires { (0 < vec_len dests) × (vec_len dests < 2 ^ 32) }
        ensures { IfOk result (λ r. IsNew (view r) Route.Unicast [] (map ring.tx_view dests.items)) }
    {
        Router::over(alloc, Route::Unicast, Vec::new(alloc), dests)
    }

    /// A router that gives all items to one destination: a unicast one that has no other.
    pub fn isolated(alloc: Global, dest: Tx<Item>) -> Result<Router, NoMemory>
        ensures { IfOk result (λ r. IsNew (view r) Route.Unicast [] (ring.tx_view dest ∷ [])) }
    {
        let mut dests = Vec::new(alloc);
        dests.push(dest)?;
        Router::over(alloc, Route::Unicast, Vec::new(alloc), dests)
    }

    /// A router that gives each item to each destination.
    pub fn broadcast(alloc: Global, dests: Vec<Tx<Item>>) -> Result<Router, NoMemory>
        requires { (0 < vec_len dests) × (vec_len dests < 2 ^ 32) }
        ensures { IfOk result (λ r. IsNew (view r) Route.Broadcast [] (map ring.tx_view dests.items)) }
    {
        Router::over(alloc, Route::Broadcast, Vec::new(alloc), dests)
    }

    /// A router that gives a data item to the destination of its key's partition, which stands at the partition's number
    /// in the table.
    pub fn partitioned(
        alloc: Global,
        dests: Vec<Tx<Item>>,
        table: Vec<u32>,
    ) -> Result<Router, NoMemory>
        requires few { vec_len dests < 2 ^ 32 }
        requires full { vec_len table ≡ 271 }
        requires aimed { (k : ℕ) → k < vec_len table → slice_index table.items k < vec_len dests }
        ensures { IfOk result (λ r. IsNew (view r) Route.Partitioned table.items (map ring.tx_view dests.items)) }
    {
        Router::over(alloc, Route::Partitioned, table, dests)
    }

    /// The number of destinations.
    pub fn dests(&self) -> u32
        ensures { result ≡ length (view self.now).dests }
    {
        self.dests.len() as u32
    }

    /// How many items its destinations can be sent in all before the next meetings.
    pub fn free(&self) -> u128
        ensures { result ≡ free_count (view self.now) }
    {
        let mut free = 0;
        for dest in &self.dests {
            free += dest.tx.free() as u128;
        }
        free
    }

    /// The end of one destination, for a meeting with its other end.
    pub fn tx(&mut self, dest: u32) -> &mut Tx<Item>
        requires { dest < length (view self.old).dests }
        ensures* writes_back { sem 𝓛 (LendsTx self.entry dest result) }
        ensures value { slice_get (txs (view self.old)) dest ≡ Some (ring.tx_view result.now) }

        // whatever comes back stands at that destination, and all other ends are as they were
        ensures ends { (w : Tx Item) → txs (view (with_tx self.old dest result.now w)) ≡ set (txs (view self.old)) dest (ring.tx_view w) }
        ensures sent { (w : Tx Item) → get_or (sents (view (with_tx self.old dest result.now w))) dest [] ≡ ring.sent w }
        ensures free { (w : Tx Item) → get_or (frees (view (with_tx self.old dest result.now w))) dest 0 ≡ ring.known_free w }
        ensures meets { (w : Tx Item) → ring.tx_ring w ≡ ring.tx_ring result.now → ring.sent w ≡ ring.sent result.now → Refreshed (view self.old) (view (with_tx self.old dest result.now w)) dest }
    {
        let lent = &mut self.dests[dest as usize];
        &mut lent.tx
    }

    /// Gives the item where it goes, as far as free slots are known. After `Again` it is to be given again.
    ///
    /// Data of a unicast or partitioned route is not in hand after `Again`, so another item may be given then.
    pub fn give(&mut self, item: &Item) -> Given
        requires pending { (view self.old).busy ≡ true → IsInHand (view self.old) item.now }
        ensures gives { Gives (aim_at (view self.old) item.now) result (view self.old) (view self.new) item.now }
        ensures all { result ≡ GivenAll → (view self.new).busy ≡ false }
        ensures in_hand { (view self.new).busy ≡ true → IsInHand (view self.new) item.now }
        ensures same { SameRouter (view self.old) (view self.new) }
        ensures reach { reaches (view self.new) ≡ reaches (view self.old) }
        ensures fewer { (k : ℕ) → get_or (frees (view self.new)) k 0 ≤ get_or (frees (view self.old)) k 0 }
        ensures more { (k : ℕ) → IsPrefix (get_or (sents (view self.old)) k []) (get_or (sents (view self.new)) k []) }

        // beside all gifts before it
        ensures dealt { (deals : List Deal) → Dealt (view self.old) deals → DealtAfter result (view self.new) deals item.now }
        ensures stuck { result ≡ Again → IsFull (view self.new) item.now }
    {
        match aim_for(self.route, &self.table, item) {
            Aim::Each => self.give_each(item),
            Aim::Any => self.give_any(item),
            Aim::Only(dest) => self.give_only(dest, item),
        }
    }

    /// Whether the item goes to each destination, so that a gift may send it to some alone. What goes to one destination
    /// was sent exactly where the answer is `All`.
    pub fn gives_to_each(&self, item: &Item) -> bool
        ensures each { IsTrue result → aim_at (view self.now) item.now ≡ Each }
        ensures one { IsFalse result → aim_at (view self.now) item.now ≡ Each → ⊥ }
    {
        goes_to_each(self.route, item)
    }

    /// A meeting of the two ends of one destination's ring, for a caller who has the other end in hand.
    pub fn refresh_dest(&mut self, dest: u32, rx: &mut Rx<Item>) -> Result<(), NoMemory>
        requires { slice_get (rings (view self.old)) dest ≡ Some (ring.rx_ring rx.old) }
        ensures answer { IsOk result }

        // nothing is sent or received
        ensures view { Refreshed (view self.old) (view self.new) dest }
        ensures ring { ring.rx_ring rx.new ≡ ring.rx_ring rx.old }
        ensures received { ring.received rx.new ≡ ring.received rx.old }

        // every item that was sent is received or known, and every other slot is known to be free
        ensures all { ring.received rx.new ++ ring.known_items rx.new ≡ get_or (sents (view self.new)) dest [] }
        ensures free { get_or (frees (view self.new)) dest 0 + length (ring.known_items rx.new) ≡ ring.rx_cap rx.new }
        ensures slots { (2 ≤ ring.rx_cap rx.new) × (ring.rx_cap rx.new ≤ 65536) }

        // no end knows less than before
        ensures seen { IsPrefix (ring.seen rx.old) (ring.seen rx.new) }
        ensures reach { (k : ℕ) → get_or (reaches (view self.old)) k 0 ≤ get_or (reaches (view self.new)) k 0 }
    {
        refresh(self.tx(dest), rx)
    }

    fn over(
        alloc: Global,
        route: Route,
        table: Vec<u32>,
        dests: Vec<Tx<Item>>,
    ) -> Result<Router, NoMemory>
        requires few { vec_len dests < 2 ^ 32 }
        requires full { route ≡ Route.Partitioned → vec_len table ≡ 271 }
        requires aimed { (k : ℕ) → k < vec_len table → slice_index table.items k < vec_len dests }
        ensures { IfOk result (λ r. IsNew (view r) route table.items (map ring.tx_view dests.items)) }
    {
        let dests = without_item(alloc, dests)?;
        Ok(Router {
            route,
            table,
            dests,
            busy: false,
            turn: 0,
        })
    }

    // Offers the item to each destination that has not had it.
    fn serve_each(&mut self, item: &Item)
        ensures { view self.new ≡ record (view self.old) { dests = map (served item.now) (view self.old).dests } }
    {
        for dest in self.dests.iter_mut() {
            dest.serve(item);
        }
    }

    // Whether each destination has had the item in hand.
    fn all_had(&self) -> bool
        ensures { IsTrue result ↔ All (λ d. d.had ≡ true) self.now.dests.items }
    {
        self.dests.iter().all(|dest| dest.had)
    }

    // Forgets the item in hand.
    fn clear(&mut self)
        ensures { view self.new ≡ record (view self.old) { dests = map unserved (view self.old).dests; busy = false } }
    {
        for dest in self.dests.iter_mut() {
            dest.clear();
        }
        self.busy = false;
    }

    // Gives an item that goes to each destination.
    fn give_each(&mut self, item: &Item) -> Given
        ensures dests { (view self.new).dests ≡ map (served item.now) (starts (view self.old).busy (view self.old).dests) }
        ensures all { result ≡ GivenAll → All (λ d. d.had ≡ true) (view self.new).dests × ((view self.new).busy ≡ false) }
        ensures again { result ≡ Again → ((view self.new).busy ≡ true) × (All (λ d. d.had ≡ true) (view self.new).dests → ⊥) }
        ensures route { ((view self.new).route ≡ (view self.old).route) × ((view self.new).table ≡ (view self.old).table) }
        ensures turn { (view self.new).turn ≡ (view self.old).turn }
    {
        if !self.busy {
            self.clear();
        }
        self.serve_each(item);
        if self.all_had() {
            self.busy = false;
            Given::All
        } else {
            self.busy = true;
            Given::Again
        }
    }

    // Gives data that goes to any one destination.
    fn give_any(&mut self, item: &Item) -> Given
        ensures gives { Gives Any result (view self.old) (view self.new) item.now }
        ensures same { SameRouter (view self.old) (view self.new) }
        ensures reach { reaches (view self.new) ≡ reaches (view self.old) }
        ensures busy { (view self.new).busy ≡ (view self.old).busy }
    {
        let turn = self.turn;
        let count = self.dests.len();
        if self.offer_span(turn, count, item) || self.offer_span(0, turn, item) {
            Given::All
        } else {
            Given::Again
        }
    }

    // Gives data that goes to one destination.
    fn give_only(&mut self, dest: usize, item: &Item) -> Given
        requires { dest < length (view self.old).dests }
        ensures gives { Gives (Only dest) result (view self.old) (view self.new) item.now }
        ensures same { SameRouter (view self.old) (view self.new) }
        ensures reach { reaches (view self.new) ≡ reaches (view self.old) }
        ensures busy { (view self.new).busy ≡ (view self.old).busy }
    {
        if self.offer_at(dest, item) {
            Given::All
        } else {
            Given::Again
        }
    }

    // Offers the item to one destination.
    fn offer_at(&mut self, dest: usize, item: &Item) -> bool
        requires { dest < length (view self.old).dests }
        ensures sent { IsTrue result → SentTo (view self.old) (view self.new) dest item.now }
        ensures full { IsFalse result → (view self.new ≡ view self.old) × (get_or (frees (view self.old)) dest 0 ≡ 0) }
        ensures same { SameRouter (view self.old) (view self.new) }
        ensures reach { reaches (view self.new) ≡ reaches (view self.old) }
    {
        if !self.dests[dest].tx.put(item) {
            return false;
        }
        self.turn = dest + 1;
        true
    }

    // Offers the item to the destinations of a span, until one takes it.
    fn offer_span(&mut self, from: usize, to: usize, item: &Item) -> bool
        requires { to ≤ length (view self.old).dests }
        ensures sent { IsTrue result → ((d : ℕ) × (from ≤ d) × (d < to) × SentTo (view self.old) (view self.new) d item.now × NoneFree (view self.old) from d) }
        ensures full { IsFalse result → (view self.new ≡ view self.old) × NoneFree (view self.old) from to }
        ensures same { SameRouter (view self.old) (view self.new) }
        ensures reach { reaches (view self.new) ≡ reaches (view self.old) }
    {
        for number in from..to {
            if self.offer_at(number, item) {
                return true;
            }
        }
        false
    }
}

// The destinations at these ends, none of which has an item in hand.
fn without_item(alloc: Global, txs: Vec<Tx<Item>>) -> Result<Vec<Dest>, NoMemory>
    ensures { IfOk result (λ v. map dest_view v.items ≡ map fresh (map tx_view txs.items)) }
{
    let mut dests = Vec::new(alloc);
    for tx in txs {
        dests.push(Dest { tx, had: false })?;
    }
    Ok(dests)
}
