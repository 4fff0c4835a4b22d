// What turns leave of a wiring, and what giving and taking outside leaves of it.
ghost use Rattle.std.specs.Prelude.{◌≡◌, List};
ghost use Rattle.jet_conveyor.specs.Conveyor.{View};
ghost use Rattle.jet_crew.specs.Epoch.{Placewise};
ghost use Rattle.jet_items.specs.declared.item.Item.{Item};
ghost use Rattle.jet_ring.specs.Ring.{TxView};
ghost use Rattle.jet_tasklet.specs.Any.{AnyTurned};
ghost use Rattle.jet_tasklet.specs.declared.any.AnyTasklet.{AnyTasklet};
ghost use Rattle.jet_engine.specs.declared.wiring.Wiring.{Wiring};
ghost use Rattle.jet_engine.specs.Lasting.{KeepsRings};
ghost use Rattle.jet_engine.specs.Wiring.{IsWired};

/// A law: turns leave each end of a tasklet of the ring, or of the link, that it was of; and so what was wired is wired
/// still.
pub fn turns_keep_the_wiring()
    ensures rings { (t u : AnyTasklet) → AnyTurned t u → KeepsRings t u }
    ensures wired { (ts us : List AnyTasklet) → (txs : List (TxView Item)) → (sink : View) → (w : Wiring) → Placewise KeepsRings ts us → IsWired ts txs sink w → IsWired us txs sink w }
{}

/// A law: giving into the rings of the files and taking from those of the sink leaves each end of its ring; and so what was
/// wired is wired still.
pub fn giving_and_taking_keep_the_wiring()
    ensures { (ts : List AnyTasklet) → (txs tys : List (TxView Item)) → (sink drained : View) → (w : Wiring) → Placewise (λ a b. b.ring ≡ a.ring) txs tys → drained.rings ≡ sink.rings → IsWired ts txs sink w → IsWired ts tys drained w }
{}
