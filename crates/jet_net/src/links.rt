// A law of links: one in which nothing is on the way may be sent on.
ghost use Rattle.std.specs.Prelude.{◌≡◌};
ghost use Rattle.jet_net.specs.Link.{Link, LinkHasMet, MayNotBegin, MayNotPush, MayNotAcknowledge};

/// Where the sender has left no acknowledgement known, the receiver may acknowledge; and once no packet is known and the
/// receiver holds none, the sender may begin a packet and push it.
pub fn links_let_through()
    ensures acknowledges { (l : Link) → LinkHasMet l → l.acks ≡ 0 → MayNotAcknowledge l → ⊥ }
    ensures begins { (l : Link) → LinkHasMet l → l.acks ≡ 0 → l.packets ≡ 0 → l.received ≡ 0 → MayNotBegin l → ⊥ }
    ensures pushes { (l : Link) → LinkHasMet l → l.packets ≡ 0 → MayNotPush l → ⊥ }
{}
