//! Servers that hold the same decide the same, go on so, and keep the same rules.
ghost use Rattle.std.specs.Prelude.{◌≡◌, ℕ, Bool, List, Option};
ghost use Rattle.cal_base.specs.declared.identity.ClientId.{ClientId};
ghost use Rattle.cal_base.specs.declared.identity.Ino.{Ino};
ghost use Rattle.message.specs.declared.message.Message.{Message};
ghost use Rattle.rebuild.specs.Collecting.{missing_of, next_of};
ghost use Rattle.token_kind.specs.declared.block.Block.{Block};
ghost use Rattle.token_kind.specs.declared.blocker.Blocker.{Blocker};
ghost use Rattle.tree_law.specs.declared.call.Call.{Call};
ghost use Rattle.tree_law.specs.declared.request.Asked.{Asked};
ghost use Rattle.tree_law.specs.declared.request.Request.{Request};
ghost use Rattle.tree_law.specs.declared.request.Want.{Want};
ghost use Rattle.cluster_law.specs.Asking.{blocks_of, deserted, first_to_admit, holders_of, next_revoke};
ghost use Rattle.cluster_law.specs.Blocking.{blocks, blocks_for, lacking, lacks_space, planned};
ghost use Rattle.cluster_law.specs.Granting.{head};
ghost use Rattle.cluster_law.specs.Lanes.{Act};
ghost use Rattle.cluster_law.specs.Removing.{due};
ghost use Rattle.cluster_law.specs.ServerRules.{ActsWell, EachAct, EndsWell, Occasion};
ghost use Rattle.cluster_law.specs.ServerState.{ServerState, after_act, after_acts, hearing, is_admitted, uses};
ghost use Rattle.server_book.specs.Alike.{Alike};

/// Alike servers decide alike: whom they wait for, ask and admit, which messages they use, what a client lacks,
/// what blocks a request and whether space is wanting, how a change is planned, what they ask back next, which
/// client they purge and which orphan they free.
pub fn alike_servers_decide_alike()
    ensures missing { (a b : ServerState) → Alike a b → missing_of a.collecting ≡ missing_of b.collecting }
    ensures next { (a b : ServerState) → Alike a b → next_of a.collecting ≡ next_of b.collecting }
    ensures admitted { (a b : ServerState) → Alike a b → is_admitted a ≡ is_admitted b }
    ensures admits { (a b : ServerState) (before : List Act) → Alike a b → first_to_admit a before ≡ first_to_admit b before }
    ensures head { (a b : ServerState) → Alike a b → head a ≡ head b }
    ensures used { (a b : ServerState) (client : ClientId) (message : Message) → Alike a b → uses a client message ≡ uses b client message }
    ensures lacked { (a b : ServerState) (client : ClientId) (want : Want) → Alike a b → lacking a client want ≡ lacking b client want }
    ensures plans { (a b : ServerState) (client : ClientId) (number : ℕ) (call : Call) → Alike a b → planned a client number call ≡ planned b client number call }
    ensures blockers { (a b : ServerState) (request : Request) → Alike a b → blocks a request ≡ blocks b request }
    ensures blockers_of_head { (a b : ServerState) → Alike a b → blocks_of a (head a) ≡ blocks_of b (head b) }
    ensures wanted { (a b : ServerState) (client : ClientId) (number : ℕ) (asked : Asked) → Alike a b → blocks_for a client number asked ≡ blocks_for b client number asked }
    ensures short { (a b : ServerState) (request : Request) → Alike a b → lacks_space a request ≡ lacks_space b request }
    ensures revoked { (a b : ServerState) (blockers : List Blocker) → Alike a b → next_revoke a blockers ≡ next_revoke b blockers }
    ensures purged { (a b : ServerState) (gone : ClientId → Bool) → Alike a b → due gone a ≡ due gone b }
    ensures orphan { (a b : ServerState) → Alike a b → deserted a ≡ deserted b }
    ensures holders { (a b : ServerState) (orphan : Option Ino) → Alike a b → holders_of a orphan ≡ holders_of b orphan }
{}

/// Alike servers go on alike, with each message that they hear and with each act.
pub fn alike_servers_go_on_alike()
    ensures hear { (a b : ServerState) (client : ClientId) (message : Message) → Alike a b → Alike (hearing a client message) (hearing b client message) }
    ensures act { (a b : ServerState) (act : Act) → Alike a b → Alike (after_act a act) (after_act b act) }
    ensures all { (a b : ServerState) (acts : List Act) → Alike a b → Alike (after_acts a acts) (after_acts b acts) }
{}

/// Alike servers keep the same rules: an act that is right in one is right in the other, so all acts of a step
/// are; and what one owes at the end of a step it has done where the other has.
pub fn alike_servers_keep_the_same_rules()
    ensures act { (o : Occasion) (start other a b : ServerState) (before : List Act) (act : Act) → Alike start other → Alike a b → ActsWell o start a before act → ActsWell o other b before act }
    ensures all { (o : Occasion) (start other : ServerState) (acts : List Act) → Alike start other → EachAct start (ActsWell o start) acts → EachAct other (ActsWell o other) acts }
    ensures ends { (o : Occasion) (start other : ServerState) (acts : List Act) (named : Option Block) → Alike start other → EndsWell o start acts named → EndsWell o other acts named }
{}
