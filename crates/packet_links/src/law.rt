ghost use Rattle.std.specs.Prelude.{◌≡◌, ◌⊎◌, ℕ};
ghost use Rattle.cal_base.specs.declared.identity.NodeId.{NodeId};
ghost use Rattle.packet_links.specs.Links.{IsLinks, IsPacket, LinksValue, Takes, Waits, after_cut, after_mend, after_remove, after_send};

/// After a send nothing waits that didn't before, but for the packet that was sent. That waits where there is
/// its link and it isn't cut, and what waited on any link still does.
pub fn a_send_adds_its_packet()
    ensures only { (links : LinksValue) (number : ℕ) (from to a b : NodeId) (m : ℕ)
        → Waits (after_send number from to links) a b m → Waits links a b m ⊎ IsPacket number from to m a b }
    ensures there { (links : LinksValue) (number : ℕ) (from to : NodeId) → Takes links from to → Waits (after_send number from to links) from to number }
    ensures kept { (links : LinksValue) (number : ℕ) (from to a b : NodeId) (m : ℕ)
        → Waits links a b m → Waits (after_send number from to links) a b m }
{}

/// A packet that was delivered or lost waits no longer; all others wait as before.
pub fn a_removal_takes_its_packet()
    ensures only { (links : LinksValue) (number : ℕ) (from to a b : NodeId) (m : ℕ)
        → Waits (after_remove number from to links) a b m → Waits links a b m }
    ensures gone { (links : LinksValue) (number : ℕ) (from to : NodeId) → IsLinks links.links → Waits (after_remove number from to links) from to number → ⊥ }
    ensures kept { (links : LinksValue) (number : ℕ) (from to a b : NodeId) (m : ℕ)
        → (IsPacket number from to m a b → ⊥) → Waits links a b m → Waits (after_remove number from to links) a b m }
{}

/// Nothing waits on a link that was cut; on all others what waited still does, and nothing else.
pub fn a_cut_loses_its_link()
    ensures only { (links : LinksValue) (from to a b : NodeId) (m : ℕ) → Waits (after_cut from to links) a b m → Waits links a b m }
    ensures gone { (links : LinksValue) (from to : NodeId) (m : ℕ) → Waits (after_cut from to links) from to m → ⊥ }
    ensures kept { (links : LinksValue) (from to a b : NodeId) (m : ℕ)
        → ((a ≡ from) × (b ≡ to) → ⊥) → Waits links a b m → Waits (after_cut from to links) a b m }
{}

/// As a link is mended, the same packets wait as before, on every link.
pub fn a_mending_brings_nothing()
    ensures only { (links : LinksValue) (from to a b : NodeId) (m : ℕ) → Waits (after_mend from to links) a b m → Waits links a b m }
    ensures kept { (links : LinksValue) (from to a b : NodeId) (m : ℕ) → Waits links a b m → Waits (after_mend from to links) a b m }
{}
