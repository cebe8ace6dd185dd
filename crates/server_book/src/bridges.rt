//! What a server's parts promise of their changes is what the law makes of them.
ghost use Rattle.std.specs.Prelude.{◌≡◌, ◌↔◌, ◌∷◌, [], ℕ, IsTrue, List, None, drop, map};
ghost use Rattle.cal_base.specs.declared.identity.ClientId.{ClientId};
ghost use Rattle.cal_base.specs.declared.identity.Ino.{Ino};
ghost use Rattle.message.specs.declared.message.Message.TheVariants.{Grant, Piece, Release};
ghost use Rattle.rebuild.specs.Collecting.{Collecting};
ghost use Rattle.rebuild.specs.Reports.{Fits, Grants, Lowers, Purges as PurgesIn, Releases, Takes};
ghost use Rattle.revocation.specs.Revokes.{AsksAll, revokes_of};
ghost use Rattle.revocation.specs.Waiting.{Answers, AsksNothing, without_client};
ghost use Rattle.shared_disk.specs.Sectors.{written};
ghost use Rattle.token_kind.specs.declared.blocker.Blocker.{Blocker};
ghost use Rattle.token_kind.specs.declared.«class».Class.{Class};
ghost use Rattle.token_kind.specs.declared.flush.Flush.{Flush as FlushRecord};
ghost use Rattle.token_kind.specs.declared.grant_item.GrantItem.{GrantItem};
ghost use Rattle.token_kind.specs.declared.hold.Hold.{Hold};
ghost use Rattle.token_kind.specs.declared.piece.Piece.{Piece as PieceRecord};
ghost use Rattle.token_kind.specs.declared.release.Release.{Release as ReleaseRecord};
ghost use Rattle.token_kind.specs.declared.revoke.Revoke.{Revoke};
ghost use Rattle.token_table.specs.Table.{IsTable, Table, held_of, key_of};
ghost use Rattle.token_table.specs.declared.hold_key.HoldKey.{HoldKey};
ghost use Rattle.volume_edit.specs.Edit.{edited};
ghost use Rattle.cluster_law.specs.Asking.{blocks_of, deserted, holders_of, next_revoke};
ghost use Rattle.cluster_law.specs.Granting.{head};
ghost use Rattle.cluster_law.specs.Lanes.{Act, Commit, Commits, Flushes, Lane, Purges, Tells};
ghost use Rattle.cluster_law.specs.ServerRules.{ActsWell, EachAct, HasReserve, Occasion, looks_at_orphans};
ghost use Rattle.cluster_law.specs.ServerState.{ServerState, after_act, after_acts, asked_with, granted_token, hearing, is_admitted, last_flush, left_by, table_in, uses};
ghost use Rattle.server_book.specs.Alike.{Alike, AnswersAll, revoking};

/// Holds that are lowered one by one are lowered together, and so they are answered: what is said of one and of
/// those behind it is said of all.
pub fn one_by_one_is_together()
    ensures lowers_none { (old : Collecting) (client : ClientId) (ino : Ino) → Releases old old client (record { ino = ino; items = [] }) }
    ensures lowers_first { (old mid new : Collecting) (client : ClientId) (ino : Ino) (cls : Class) (to : Hold) (items : List (Class × Hold)) → Lowers old mid client ino cls to → Releases mid new client (record { ino = ino; items = items })
        → Releases old new client (record { ino = ino; items = (cls, to) ∷ items }) }
    ensures answers_none { (table : Table) (client : ClientId) (ino : Ino) (asked : List (HoldKey × Hold)) → AnswersAll table client ino [] asked asked }
    ensures answers_first { (table : Table) (client : ClientId) (ino : Ino) (item : Class × Hold) (items : List (Class × Hold)) (old mid new : List (HoldKey × Hold)) → Answers old mid (key_of client ino item.0) (held_of table client ino item.0)
        → AnswersAll table client ino items mid new → AnswersAll table client ino (item ∷ items) old new }
{}

/// Of a server that is alike the law's, the parts make one that is alike the law's next: where they take a piece
/// that fits, lower and answer what a client releases, grant what a Grant says and take the head from the line,
/// and where, with a commit, they lower what a flush leaves, or drop a purged client.
pub fn parts_change_as_the_law()
    ensures takes { (server law : ServerState) (new : Collecting) (client : ClientId) (piece : PieceRecord) → Alike server law → Fits server.collecting client piece (last_flush server client) → Takes server.collecting new client piece (last_flush server client)
        → Alike (record server { collecting = new }) (hearing law client (Piece piece)) }
    ensures releases { (server law : ServerState) (new : Collecting) (client : ClientId) (release : ReleaseRecord) (asked : List (HoldKey × Hold)) → Alike server law → Releases server.collecting new client release → AnswersAll new.table client release.ino release.items server.asked asked
        → Alike (record server { collecting = new; asked = asked }) (hearing law client (Release release)) }
    ensures grants { (server law : ServerState) (new : Collecting) (lane : Lane) (number : ℕ) (items : List GrantItem) → Alike server law → Grants server.collecting new (record { 0 = lane.client }) (map granted_token items)
        → Alike (record server { collecting = new; requests = drop 1 server.requests }) (after_act law (Tells lane (Grant number items))) }
    ensures flushes { (server law : ServerState) (new : Collecting) (client : ℕ) (flush : FlushRecord) (commit : Commit) (asked : List (HoldKey × Hold)) → Alike server law → commit.deed ≡ Flushes client flush
        → Releases server.collecting new (record { 0 = client }) (record { ino = flush.ino; items = left_by flush }) → AnswersAll new.table (record { 0 = client }) flush.ino (left_by flush) server.asked asked
        → Alike (record { collecting = new; requests = server.requests; asked = asked; volume = edited server.volume commit.edit; sectors = written (written server.sectors commit.lays) commit.homes }) (after_act law (Commits commit)) }
    ensures purges { (server law : ServerState) (new : Collecting) (client : ℕ) (commit : Commit) (asked : List (HoldKey × Hold)) → Alike server law → commit.deed ≡ Purges client → PurgesIn server.collecting new (record { 0 = client }) → AsksNothing server.asked asked (record { 0 = client })
        → Alike (record { collecting = new; requests = without_client server.requests (record { 0 = client }); asked = asked; volume = edited server.volume commit.edit; sectors = written (written server.sectors commit.lays) commit.homes }) (after_act law (Commits commit)) }
{}

/// Where a server asks all that blocks, by the Revokes for it, it is alike the law's once these are told, one
/// after the other.
pub fn revokes_ask_what_blocks()
    ensures { (server start : ServerState) (before : List Act) (view : ℕ) (asked : List (HoldKey × Hold)) (blockers : List Blocker) → Alike server (after_acts start before) → AsksAll server.asked asked blockers
        → Alike (record server { asked = asked }) (after_acts start (revoking view (revokes_of server.asked blockers) before)) }
{}

/// Once the first of the Revokes for some holds is told, exactly the others are left, in their order. So each is the
/// one that goes out next where it is told.
pub fn a_revoke_is_told_once()
    ensures { (asked : List (HoldKey × Hold)) (blockers : List Blocker) (sent : ClientId × Revoke) (rest : List (ClientId × Revoke)) → revokes_of asked blockers ≡ sent ∷ rest
        → revokes_of (asked_with sent.0 sent.1.ino sent.1.items asked) blockers ≡ rest }
{}

/// A piece fits exactly where the law uses it, while the table is one.
pub fn a_piece_fits_where_it_is_used()
    ensures { (server : ServerState) (client : ClientId) (piece : PieceRecord) → IsTable (table_in server) → IsTrue (uses server client (Piece piece)) ↔ Fits server.collecting client piece (last_flush server client) }
{}

/// Where a server looks at orphans, it may tell the Revokes for all holds on the least deserted one, in order.
pub fn an_orphan_is_asked_for_in_turn()
    ensures { (o : Occasion) (start : ServerState) (before : List Act) (view : ℕ) → IsTrue (looks_at_orphans o start) → IsTrue (is_admitted (after_acts start before)) → HasReserve (after_acts start before) → EachAct start (ActsWell o start) before
        → EachAct start (ActsWell o start) (revoking view (revokes_of (after_acts start before).asked (holders_of (after_acts start before) (deserted (after_acts start before)))) before) }
{}

/// Where a server is admitted and has its reserve, it may tell the Revokes for all that blocks the head of its
/// line, in order: what blocks it stays the same meanwhile. And then none is left to tell.
pub fn what_blocks_is_asked_in_turn()
    ensures keeps { (o : Occasion) (start : ServerState) (before : List Act) (view : ℕ) → IsTable (table_in (after_acts start before)) → IsTrue (is_admitted (after_acts start before)) → HasReserve (after_acts start before) → EachAct start (ActsWell o start) before
        → EachAct start (ActsWell o start) (revoking view (revokes_of (after_acts start before).asked (blocks_of (after_acts start before) (head (after_acts start before)))) before) }
    ensures rests { (start : ServerState) (before : List Act) (view : ℕ) → IsTable (table_in (after_acts start before)) → IsTrue (is_admitted (after_acts start before)) → HasReserve (after_acts start before)
        → let end = after_acts start (revoking view (revokes_of (after_acts start before).asked (blocks_of (after_acts start before) (head (after_acts start before)))) before) in next_revoke end (blocks_of end (head end)) ≡ None }
{}
