//! What no step does that keeps the law: each wrong way for a client or a server to work, and the rule that
//! refuses it.
ghost use Rattle.std.specs.Prelude.{◌≡◌, ◌≢◌, ◌⊎◌, ◌≤◌, ◌<◌, ◌∷◌, ◌++◌, [], ℕ, Bool, List, Option, Some, None, Contains, count_by, false, true, IsSome, IsTrue};
ghost use Rattle.cal_base.specs.declared.identity.ClientId.{ClientId};
ghost use Rattle.cal_base.specs.declared.identity.Ino.{Ino};
ghost use Rattle.cal_base.specs.declared.identity.View.{View};
ghost use Rattle.message.specs.declared.message.Message.{Message};
ghost use Rattle.message.specs.declared.message.Message.TheVariants.{Acquire, Grant, Refuse, Change, Done, Flush, Flushed, Revoke, Release, Ask, Piece, Wait, Admit};
ghost use Rattle.rebuild.specs.Collecting.{first_to_ask, is_asked, missing_of};
ghost use Rattle.rebuild.specs.Reports.{judged};
ghost use Rattle.revocation.specs.Waiting.{asked_at};
ghost use Rattle.shared_disk.specs.declared.stop.Stop.{Stop};
ghost use Rattle.token_kind.specs.Hold.{conflict};
ghost use Rattle.token_kind.specs.declared.block.Block.{Block};
ghost use Rattle.token_kind.specs.declared.flush.Flush.{Flush as FlushRecord};
ghost use Rattle.token_kind.specs.declared.grant_item.GrantItem.{GrantItem};
ghost use Rattle.token_kind.specs.declared.reported.Reported.{Reported};
ghost use Rattle.token_kind.specs.declared.revoke.Revoke.{Revoke as RevokeRecord};
ghost use Rattle.token_kind.specs.declared.token.Token.{Token};
ghost use Rattle.token_table.specs.Table.{held_of, key_of, same_client};
ghost use Rattle.tree_law.specs.declared.call.Call.{Call};
ghost use Rattle.tree_law.specs.declared.entry.Entry.{Entry};
ghost use Rattle.tree_law.specs.declared.reply.Reply.{Reply};
ghost use Rattle.tree_law.specs.declared.request.Request.{Request};
ghost use Rattle.cluster_law.specs.declared.step.Answer.{Answer};
ghost use Rattle.cluster_law.specs.declared.step.Halt.TheVariants.{Fenced, Failed, Stopped, Damaged};
ghost use Rattle.cluster_law.specs.Asking.{blocks_of, deserted, first_to_admit, holders_of, is_admit, is_flushed, is_wait, next_revoke, was_told};
ghost use Rattle.cluster_law.specs.Blocking.{blocks, lacking, last_change, needed};
ghost use Rattle.cluster_law.specs.ClientRules.{Answers};
ghost use Rattle.client_cache.specs.declared.next_step.Next.TheVariants.{Asks};
ghost use Rattle.cluster_law.specs.ClientState.{ClientState, Starts, Turn, hears, is_try, told};
ghost use Rattle.cluster_law.specs.Coverage.{is_covered};
ghost use Rattle.cluster_law.specs.DiskRules.{HasRisen, WritesOn};
ghost use Rattle.cluster_law.specs.Granting.{head};
ghost use Rattle.cluster_law.specs.Lanes.{Act, Changes, Commit, Commits, Flushes, Lane, Purges, Reaps, Tells};
ghost use Rattle.cluster_law.specs.Noted.{DiskAt};
ghost use Rattle.cluster_law.specs.Owed.{owed, trying};
ghost use Rattle.cluster_law.specs.Removing.{HasDone, due, has_removed};
ghost use Rattle.cluster_law.specs.ServerRules.{ActsWell, EndsWell, IsPurgeOf, IsReapOf, Occasion};
ghost use Rattle.cluster_law.specs.ServerState.{ServerState, after_acts, is_admitted, last_flush, table_in};
ghost use Rattle.cluster_law.specs.Sight.{Sight, closed};

/// While a client is missing a server grants, refuses, answers, revokes and frees nothing. So none grants
/// before the last report is in, whether it asked for none or keeps an old table.
pub fn a_collecting_server_serves_nobody()
    ensures grants { (o : Occasion) (start server : ServerState) (before : List Act) (lane : Lane) (number : ℕ) (items : List GrantItem) → ActsWell o start server before (Tells lane (Grant number items)) → IsTrue (is_admitted server) }
    ensures refuses { (o : Occasion) (start server : ServerState) (before : List Act) (lane : Lane) (number free wanted : ℕ) → ActsWell o start server before (Tells lane (Refuse number free wanted)) → IsTrue (is_admitted server) }
    ensures answers { (o : Occasion) (start server : ServerState) (before : List Act) (lane : Lane) (number : ℕ) (reply : Reply) → ActsWell o start server before (Tells lane (Done number reply)) → IsTrue (is_admitted server) }
    ensures revokes { (o : Occasion) (start server : ServerState) (before : List Act) (lane : Lane) (revoke : RevokeRecord) → ActsWell o start server before (Tells lane (Revoke revoke)) → IsTrue (is_admitted server) }
    ensures changes { (o : Occasion) (start server : ServerState) (before : List Act) (commit : Commit) (asked : Request) (reply : Reply) (new_ino : Option Ino) → commit.deed ≡ Changes asked reply new_ino → ActsWell o start server before (Commits commit) → IsTrue (is_admitted server) }
    ensures frees { (o : Occasion) (start server : ServerState) (before : List Act) (commit : Commit) (ino : Ino) → commit.deed ≡ Reaps ino → ActsWell o start server before (Commits commit) → IsTrue (is_admitted server) }
{}

/// A change and a flush are carried out once: the number of each is above those that the client's slot has. So
/// no server executes a request again after a takeover, nor applies a late repeat of a flush.
pub fn a_number_is_new()
    ensures change { (o : Occasion) (start server : ServerState) (before : List Act) (commit : Commit) (asked : Request) (reply : Reply) (new_ino : Option Ino) → commit.deed ≡ Changes asked reply new_ino → ActsWell o start server before (Commits commit) → last_change server asked.client < asked.number }
    ensures flush { (o : Occasion) (start server : ServerState) (before : List Act) (commit : Commit) (client : ℕ) (flush : FlushRecord) → commit.deed ≡ Flushes client flush → ActsWell o start server before (Commits commit) → last_flush server (record { 0 = client }) < flush.number }
{}

/// Only a client that was declared gone is purged; a purge and the freeing of an orphan are done in a tick
/// alone, and one in it.
pub fn the_living_are_not_purged()
    ensures gone { (o : Occasion) (start server : ServerState) (before : List Act) (commit : Commit) (client : ℕ) → commit.deed ≡ Purges client → ActsWell o start server before (Commits commit) → IsTrue (o.gone (record { 0 = client })) }
    ensures tick { (o : Occasion) (start server : ServerState) (before : List Act) (commit : Commit) (client : ℕ) → commit.deed ≡ Purges client → ActsWell o start server before (Commits commit) → IsTrue o.tick }
    ensures frees { (o : Occasion) (start server : ServerState) (before : List Act) (commit : Commit) (ino : Ino) → commit.deed ≡ Reaps ino → ActsWell o start server before (Commits commit) → IsTrue o.tick }
    ensures one { (o : Occasion) (start server : ServerState) (before : List Act) (commit : Commit) (client : ℕ) → commit.deed ≡ Purges client → ActsWell o start server before (Commits commit) → has_removed before ≡ false }
{}

/// An Ask goes to the least client that is to be asked, while fewer are asked than the window lets: not to all
/// at once, and in no other order.
pub fn no_more_are_asked_than_the_window_lets()
    ensures fewer { (o : Occasion) (start server : ServerState) (before : List Act) (lane : Lane) → ActsWell o start server before (Tells lane Ask) → count_by is_asked server.collecting.standings < server.collecting.window }
    ensures least { (o : Occasion) (start server : ServerState) (before : List Act) (lane : Lane) → ActsWell o start server before (Tells lane Ask) → first_to_ask server.collecting ≡ Some (record { 0 = lane.client }) }
{}

/// Wait, Flushed and Admit are told once to a client in a step; a Wait while a client is missing alone, and a
/// Flushed alone where the disk has that flush. So no server answers Wait for ever, or tells what isn't so.
pub fn each_is_told_once()
    ensures wait { (o : Occasion) (start server : ServerState) (before : List Act) (lane : Lane) (number : ℕ) (least : ClientId) → ActsWell o start server before (Tells lane (Wait number least)) → was_told lane.client is_wait before ≡ false }
    ensures missing { (o : Occasion) (start server : ServerState) (before : List Act) (lane : Lane) (number : ℕ) (least : ClientId) → ActsWell o start server before (Tells lane (Wait number least)) → missing_of server.collecting ≡ Some least }
    ensures flushed { (o : Occasion) (start server : ServerState) (before : List Act) (lane : Lane) (number : ℕ) → ActsWell o start server before (Tells lane (Flushed number)) → was_told lane.client is_flushed before ≡ false }
    ensures lasts { (o : Occasion) (start server : ServerState) (before : List Act) (lane : Lane) (number : ℕ) → ActsWell o start server before (Tells lane (Flushed number)) → number ≤ last_flush server (record { 0 = lane.client }) }
    ensures admitted { (o : Occasion) (start server : ServerState) (before : List Act) (lane : Lane) → ActsWell o start server before (Tells lane Admit) → o.was_admitted ≡ false }
{}

/// A Grant comes after all that blocks it: no other client's hold conflicts with what it brings, and no hold
/// that its client needs is asked back.
pub fn a_grant_comes_after_what_blocks_it()
    ensures others { (o : Occasion) (start server : ServerState) (before : List Act) (lane : Lane) (number : ℕ) (items : List GrantItem) (item : GrantItem) (other : ClientId) → ActsWell o start server before (Tells lane (Grant number items)) → Contains items item
        → other.0 < 16 → same_client (record { 0 = lane.client }) other ≡ false → conflict item.hold (held_of (table_in server) other item.ino item.«class») ≡ false }
    ensures own { (o : Occasion) (start server : ServerState) (before : List Act) (lane : Lane) (number : ℕ) (items : List GrantItem) (item : GrantItem) → ActsWell o start server before (Tells lane (Grant number items)) → Contains items item
        → asked_at server.asked (key_of (record { 0 = lane.client }) item.ino item.«class») ≡ None }
{}

/// Want of blocks is answered only where no Data Write hold is left that could be called back.
pub fn space_is_refused_last()
    ensures { (o : Occasion) (start server : ServerState) (before : List Act) (lane : Lane) (number free wanted : ℕ) → ActsWell o start server before (Tells lane (Refuse number free wanted)) → (table_in server).writes ≡ [] }
{}

/// A step of a server that goes on leaves nothing undone. Of an admitted one the head of the line is blocked,
/// and all that blocks it is asked back; a tick purges the client that is due, or frees the least deserted
/// orphan once nobody holds its bytes or its size; and in the step in which no client is missing any longer
/// all are admitted. So none keeps its line idle, never purges, or always waits.
pub fn a_server_goes_on()
    ensures serves { (o : Occasion) (start : ServerState) (acts : List Act) (named : Option Block) (request : Request) → EndsWell o start acts named → IsTrue (is_admitted (after_acts start acts)) → head (after_acts start acts) ≡ Some request → blocks (after_acts start acts) request ≢ [] }
    ensures asks { (o : Occasion) (start : ServerState) (acts : List Act) (named : Option Block) → EndsWell o start acts named → IsTrue (is_admitted (after_acts start acts)) → next_revoke (after_acts start acts) (blocks_of (after_acts start acts) (head (after_acts start acts))) ≡ None }
    ensures purges { (o : Occasion) (start : ServerState) (acts : List Act) (named : Option Block) (client : ClientId) → EndsWell o start acts named → IsTrue o.tick → due o.gone start ≡ Some client → HasDone (IsPurgeOf client) acts }
    ensures frees { (o : Occasion) (start : ServerState) (acts : List Act) (named : Option Block) (ino : Ino) → EndsWell o start acts named → IsTrue o.tick → due o.gone start ≡ None → IsTrue (is_admitted start) → deserted start ≡ Some ino → holders_of start (Some ino) ≡ [] → HasDone (IsReapOf ino) acts }
    ensures admits { (o : Occasion) (start : ServerState) (acts : List Act) (named : Option Block) → EndsWell o start acts named → o.was_admitted ≡ false → IsTrue (is_admitted (after_acts start acts)) → first_to_admit (after_acts start acts) acts ≡ None }
{}

/// No server halts at will: it is stopped at an armed stop alone, fenced where the key is another view's, failed
/// where the count of faults rose, and finds damage as it boots alone. One that goes on has made all its writes.
pub fn no_server_halts_at_will()
    ensures stopped { (boots : Bool) (view : ℕ) (planned writes : List (ℕ × List ℕ)) (before after : DiskAt) → WritesOn boots view planned None before after writes (Some Stopped) → ⊥ }
    ensures fenced { (boots : Bool) (view : ℕ) (planned writes : List (ℕ × List ℕ)) (stop : Option Stop) (before after : DiskAt) (mine current : View) → WritesOn boots view planned stop before after writes (Some (Fenced mine current)) → before.key ≢ view }
    ensures failed { (boots : Bool) (view : ℕ) (planned writes : List (ℕ × List ℕ)) (stop : Option Stop) (before after : DiskAt) (faults : ℕ) → WritesOn boots view planned stop before after writes (Some (Failed faults)) → HasRisen before.faults after.faults }
    ensures damaged { (boots : Bool) (view : ℕ) (planned writes : List (ℕ × List ℕ)) (stop : Option Stop) (before after : DiskAt) (sector : ℕ) → WritesOn boots view planned stop before after writes (Some (Damaged sector)) → IsTrue boots }
    ensures goes_on { (boots : Bool) (view : ℕ) (planned writes : List (ℕ × List ℕ)) (stop : Option Stop) (before after : DiskAt) → WritesOn boots view planned stop before after writes None → writes ≡ planned }
{}

/// A hold that is reported behind a flush which the disk has counts as what the flush leaves. So no rebuilt
/// table takes a committed flush's Write as held.
pub fn a_committed_flush_counts()
    ensures { (server : ServerState) (client : ClientId) (reported : Reported) → 0 < reported.flush → reported.flush ≤ last_flush server client → (judged (last_flush server client) reported).hold ≡ reported.leave }
{}

/// A client answers by itself what is covered, and a last `close`; any other answer is one that the server
/// told it in that step. So none answers from a hold that it gave up.
pub fn a_client_answers_what_is_covered()
    ensures { (before after : Sight) (client : ℕ) (old : ClientState) (turn : Turn) (answer : Answer) (entries : List Entry) (call : Call) → Answers before after client old turn (Some answer) entries → (hears before old turn).call ≡ Some call → told (hears before old turn) turn ≡ None
        → IsTrue (is_try turn) × (IsTrue (is_covered after (hears before old turn).book call) ⊎ IsSome (closed after call)) }
{}

/// A covered call is answered without a message; and no request is made while one for the call is unanswered.
pub fn a_covered_call_needs_no_message()
    ensures covered { (before after : Sight) (c : ClientState) (call : Call) → IsTrue (is_covered after c.book call) → owed before after c (Starts call) ≡ [] }
    ensures one { (sight : Sight) (c : ClientState) (call : Call) (request : Message) → c.request ≡ Some request → trying sight c call Asks ≡ [] }
{}
