ghost use Rattle.std.specs.Prelude.{◌≡◌, ◌≢◌, ◌≤◌, ℕ, true, List, [], Ok, Some, slice_get};
ghost use Rattle.cal_base.specs.declared.identity.ClientId.{ClientId};
ghost use Rattle.cal_base.specs.declared.identity.Ino.{Ino};
ghost use Rattle.inode.specs.declared.inode.Inode.{Inode};
ghost use Rattle.inode.specs.declared.inode.Kind.TheVariants.{Free};
ghost use Rattle.tree_law.specs.Legal.{tree_of};
ghost use Rattle.tree_law.specs.Needs.{touches};
ghost use Rattle.tree_law.specs.Rename.{move_of};
ghost use Rattle.tree_law.specs.Resolve.{new_place};
ghost use Rattle.tree_law.specs.declared.call.Call.{Call};
ghost use Rattle.tree_law.specs.declared.call.Call.TheVariants.{Create, Mkdir, Rename};
ghost use Rattle.tree_law.specs.declared.entry.Entry.{Entry};
ghost use Rattle.tree_law.specs.declared.rename.Move.{Move};
ghost use Rattle.tree_law.specs.declared.reply.Reply.TheVariants.{Done, Refused};
ghost use Rattle.tree_law.specs.declared.reply.Why.{Why};
ghost use Rattle.tree_law.specs.declared.reply.Why.TheVariants.{NoInode};
ghost use Rattle.volume.specs.Volume.{Volume};
ghost use Rattle.volume_plan.specs.Leads.{IsAsked, Mounted};
ghost use Rattle.volume_plan.specs.Planned.{PlanLeads};
ghost use Rattle.volume_plan.specs.Plans.{free_count, plan};

/// A change that is refused, by the tree or for want of an inode or of blocks, and a rename of an entry to
/// itself: the client's slot alone is altered. With its home in place the sectors stand for the history
/// with the change and its reply.
pub fn a_refusal_stands()
    ensures refused { (sectors : List (List ℕ)) (v : Volume) (history : List Entry) (client : ClientId) (number : ℕ) (call : Call) (opened : List Ino) (why : Why) → Mounted sectors v history → IsAsked history client number call opened
        → (plan v client number call opened).reply ≡ Refused why → PlanLeads sectors v history client number call opened }
    ensures same { (sectors : List (List ℕ)) (v : Volume) (history : List Entry) (client : ClientId) (number : ℕ) (path goal : List (List ℕ)) (opened : List Ino) (move : Move) → Mounted sectors v history → IsAsked history client number (Rename path goal) opened
        → move_of (tree_of history) path goal ≡ Ok move → move.is_same ≡ true → PlanLeads sectors v history client number (Rename path goal) opened }
{}

/// A file or a directory that is made: its entry comes to the first empty slot, in a new block where the
/// directory is full, and its inode is the least free one. With the homes in place the sectors stand for
/// the history with the change. A creation that the tree doesn't refuse is done where an inode is free and
/// there are as many free blocks as its plan needs.
pub fn a_creation_stands()
    ensures file_is_done { (sectors : List (List ℕ)) (v : Volume) (history : List Entry) (client : ClientId) (number : ℕ) (path : List (List ℕ)) (opened : List Ino) (place : Ino) (free : ℕ) (inode : Inode) → Mounted sectors v history → new_place (tree_of history) path ≡ Ok place
        → slice_get v.inodes free ≡ Some inode → inode.kind ≡ Free → (plan v client number (Create path) opened).needed ≤ free_count v → (plan v client number (Create path) opened).reply ≡ Done }
    ensures directory_is_done { (sectors : List (List ℕ)) (v : Volume) (history : List Entry) (client : ClientId) (number : ℕ) (path : List (List ℕ)) (opened : List Ino) (place : Ino) (free : ℕ) (inode : Inode) → Mounted sectors v history → new_place (tree_of history) path ≡ Ok place
        → slice_get v.inodes free ≡ Some inode → inode.kind ≡ Free → (plan v client number (Mkdir path) opened).needed ≤ free_count v → (plan v client number (Mkdir path) opened).reply ≡ Done }
    ensures file { (sectors : List (List ℕ)) (v : Volume) (history : List Entry) (client : ClientId) (number : ℕ) (path : List (List ℕ)) (opened : List Ino) → Mounted sectors v history → IsAsked history client number (Create path) opened
        → (plan v client number (Create path) opened).reply ≡ Done → PlanLeads sectors v history client number (Create path) opened }
    ensures directory { (sectors : List (List ℕ)) (v : Volume) (history : List Entry) (client : ClientId) (number : ℕ) (path : List (List ℕ)) (opened : List Ino) → Mounted sectors v history → IsAsked history client number (Mkdir path) opened
        → (plan v client number (Mkdir path) opened).reply ≡ Done → PlanLeads sectors v history client number (Mkdir path) opened }
{}

/// The plan of a change touches what the change touches in the tree; for want of an inode it touches
/// nothing.
pub fn a_plan_touches_what_its_change_does()
    ensures touched { (sectors : List (List ℕ)) (v : Volume) (history : List Entry) (client : ClientId) (number : ℕ) (call : Call) (opened : List Ino) → Mounted sectors v history
        → (plan v client number call opened).reply ≢ Refused NoInode → (plan v client number call opened).touches ≡ touches (tree_of history) call }
    ensures nothing { (v : Volume) (client : ClientId) (number : ℕ) (call : Call) (opened : List Ino) → (plan v client number call opened).reply ≡ Refused NoInode → (plan v client number call opened).touches ≡ [] }
{}
