//! How a desk stands to the law's server where no call is made.
ghost use Rattle.std.specs.Prelude.{ℕ, [], List};
ghost use Rattle.cluster_law.specs.Lanes.{Commit, Commits};
ghost use Rattle.cluster_law.specs.ServerState.{ServerState, after_act, doing, empty_table, serving};
ghost use Rattle.rebuild.specs.Collecting.{none_listed};
ghost use Rattle.volume.specs.Volume.{Volume};
ghost use Rattle.server_desk.specs.Desk.{DeskValue, IsLike};

/// A new desk is like a server of the law that has a volume and waits for nobody.
pub fn a_new_desk_is_like_a_server_that_starts()
    ensures { (window : ℕ) (volume : Volume) (sectors : List (List ℕ)) → IsLike (record { collecting = record { window = window; standings = none_listed; table = empty_table }; requests = []; asked = [] }) (serving window volume sectors) }
{}

/// A desk that is like a server after a deed is like it after the commit of the deed: volume and sectors stand
/// beside the desk.
pub fn a_commit_does_its_deed_to_the_desk()
    ensures { (desk : DeskValue) (server : ServerState) (commit : Commit) → IsLike desk (doing server commit.deed) → IsLike desk (after_act server (Commits commit)) }
{}
