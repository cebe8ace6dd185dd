ghost use Rattle.std.specs.Prelude.{ℕ, List};
ghost use Rattle.cal_base.specs.declared.identity.ClientId.{ClientId};
ghost use Rattle.cal_base.specs.declared.identity.Ino.{Ino};
ghost use Rattle.tree_law.specs.declared.call.Call.{Call};
ghost use Rattle.tree_law.specs.declared.entry.Entry.{Entry};
ghost use Rattle.volume.specs.Volume.{Volume};
ghost use Rattle.volume_plan.specs.Leads.{IsAsked, Mounted};
ghost use Rattle.volume_plan.specs.Planned.{PlanLeads};

/// Each change that a server may carry out, whether it is done or refused: the plan's edit keeps the volume
/// within its grammar, the tree allows the change with the plan's reply and new inode, and with the homes
/// of the edit in place the sectors stand for the history with it.
pub fn a_change_stands()
    ensures { (sectors : List (List ℕ)) (v : Volume) (history : List Entry) (client : ClientId) (number : ℕ) (call : Call) (opened : List Ino) → Mounted sectors v history → IsAsked history client number call opened
        → PlanLeads sectors v history client number call opened }
{}
