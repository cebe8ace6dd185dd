ghost use Rattle.std.specs.Prelude.{List, Bool, All};
ghost use Rattle.cal_base.specs.declared.identity.ClientId.{ClientId};
ghost use Rattle.cal_base.specs.declared.identity.Ino.{Ino};
ghost use Rattle.token_kind.specs.declared.«class».Class.{Class};
ghost use Rattle.token_kind.specs.declared.token.Token.{Token};
ghost use Rattle.token_table.specs.Table.{Table, IsTable};
ghost use Rattle.token_table.specs.Blockers.{blockers_of, touchers_of};
ghost use Rattle.revocation.specs.Formed.{AreAskable, AreNeeds, AreTouches};
ghost use Rattle.revocation.specs.Order.{AreInOrder, AreSentWhereNeeded};
ghost use Rattle.token_kind.specs.declared.blocker.Blocker.{Blocker};
ghost use Rattle.token_kind.specs.declared.hold.Hold.{Hold};
ghost use Rattle.token_table.specs.declared.hold_key.HoldKey.{HoldKey};
ghost use Rattle.revocation.specs.Reasons.{AreAsked, IsOfBlockers};
ghost use Rattle.revocation.specs.Revokes.{AsksAll, revokes_of};

/// A Revoke asks nothing without a reason: each of its items stands for a blocker of that client and inode,
/// in that class, in the mode asked. And once the blockers are asked, each of them but Open is asked at or
/// below its mode.
pub fn what_blocks_is_asked()
    ensures items { (asked : List (HoldKey × Hold)) (blockers : List Blocker) → All (IsOfBlockers blockers) (revokes_of asked blockers) }
    ensures asked { (old new : List (HoldKey × Hold)) (blockers : List Blocker) → AsksAll old new blockers → AreAsked new blockers }
{}

/// Revokes go out in the order in which their client and inode first stand in the list of blockers, whether
/// or not the blocker that stands there is asked already. One goes to a client of an inode exactly where one
/// of its holds on it is a blocker that isn't asked yet.
pub fn revokes_go_in_order()
    ensures order { (asked : List (HoldKey × Hold)) (blockers : List Blocker) → AreInOrder blockers (revokes_of asked blockers) }
    ensures needed { (asked : List (HoldKey × Hold)) (blockers : List Blocker) → AreSentWhereNeeded asked blockers (revokes_of asked blockers) }
{}

/// What blocks the needs of a client, and who holds what a change touches, may be asked: where the needs and
/// touches are Names of directories, and Data, Attr and Open of files, by any telling of inodes into the two.
pub fn what_blocks_may_be_asked()
    ensures needs { (t : Table) (c : ClientId) (is_directory : Ino → Bool) (needs : List Token) → IsTable t → AreNeeds is_directory needs → AreAskable (blockers_of t c needs) }
    ensures touches { (t : Table) (is_directory : Ino → Bool) (touches : List (Ino × Class)) → AreTouches is_directory touches → AreAskable (touchers_of t touches) }
{}
