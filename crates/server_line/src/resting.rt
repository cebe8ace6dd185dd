ghost use Rattle.std.specs.Prelude.{◌≡◌, ◌++◌, ◌+◌, ◌&&◌, [], ℕ, false, List, All, IfOk, nat_lt, option_map};
ghost use Rattle.revocation.specs.Formed.{AreAskable};
ghost use Rattle.token_table.specs.Table.{IsTable};
ghost use Rattle.tree_law.specs.declared.request.Asked.{Asked};
ghost use Rattle.volume_plan.specs.Plans.{free_count};
ghost use Rattle.cluster_law.specs.Blocking.{first_write, or_space, reserved};
ghost use Rattle.cluster_law.specs.Lists.{first_of, is_empty};
ghost use Rattle.cluster_law.specs.ServerRules.{block_by};
ghost use Rattle.cluster_law.specs.ServerState.{as_request};
ghost use Rattle.server_draft.specs.Draft.{IsWithin};
ghost use Rattle.server_line.specs.Blocked.{AreBlockers, CanBeAsked};
ghost use Rattle.server_line.specs.Known.{IsHead, known};
ghost use Rattle.server_line.specs.Served.{Serves};

use cal_base::{CLIENTS, ClientId, INODES, Ino, Oom, UNFLUSHED_BLOCKS};
use server_draft::Draft;
use std::alloc::Global;
use token_kind::{Block, Blocker, BlockerList, Class, Hold};
use token_table::TokenTable;

/// What blocks a request, in order.
#[derive(Drop)]
pub(crate) struct Blockers {
    /// What is asked back, if it isn't yet: holds of others, or for want of blocks one Data Write hold.
    pub to_ask: BlockerList,
    /// The caller's own needed holds of which a Revoke is unanswered.
    pub own: BlockerList,
}

/// Whether nothing blocks.
pub(crate) fn is_free(blockers: &Blockers) -> bool
    ensures { result ≡ is_empty (blockers.now.to_ask ++ blockers.now.own) }
{
    blockers.to_ask.is_empty() && blockers.own.is_empty()
}

/// The table of holds. Whatever it has, it is a table.
pub(crate) fn table_of(draft: &Draft) -> &TokenTable
    ensures table { result.now ≡ draft.now.desk.collecting.table }
    ensures is_table { IsTable draft.now.desk.collecting.table }
{
    let table = draft.desk.table();
    prove!(table.held(ClientId(0), Ino::ROOT, Class::Names) != Hold::Write);
    table
}

/// What blocks a request: these holds, or where there are none and fewer blocks are free than are wanted beside those
/// that are kept for Data Write holds, the Data Write hold that was granted first, if there is one.
pub(crate) fn or_space(
    alloc: Global,
    draft: &Draft,
    wanted: u16,
    holds: Blockers,
) -> Result<Blockers, Oom>
    ensures all { IfOk result (λ blockers. (sectors : List (List ℕ)) → blockers.to_ask ++ blockers.own ≡ or_space (known draft.now sectors) wanted (holds.to_ask ++ holds.own)) }
    ensures own { IfOk result (λ blockers. blockers.own ≡ holds.own) }
    ensures some { IfOk result (λ blockers. blockers.to_ask ≡ [] → holds.to_ask ≡ []) }
    ensures askable { IfOk result (λ blockers. CanBeAsked holds → CanBeAsked blockers) }
{
    if is_wanting(draft, wanted, &holds) {
        let to_ask = first_write(alloc, draft)?;
        Ok(Blockers {
            to_ask,
            own: holds.own,
        })
    } else {
        Ok(holds)
    }
}

/// Whether no hold blocks, and blocks are wanting.
fn is_wanting(draft: &Draft, wanted: u16, holds: &Blockers) -> bool
    ensures { (sectors : List (List ℕ)) → result ≡ (is_empty (holds.now.to_ask ++ holds.now.own) && nat_lt (free_count draft.now.image) (wanted + reserved (known draft.now sectors))) }
{
    is_free(holds) && is_short(draft, wanted)
}

/// The Data Write hold that was granted first, to be asked down to Read, if there is one.
fn first_write(alloc: Global, draft: &Draft) -> Result<BlockerList, Oom>
    ensures first { IfOk result (λ blockers. blockers ≡ first_write draft.now.desk.collecting.table.writes) }
    ensures askable { IfOk result AreAskable }
    ensures within { IfOk result (All IsWithin) }
{
    let mut blockers = BlockerList::new(alloc);
    if let Some((client, ino)) = table_of(draft).first_write() {
        blockers.push(Blocker {
            client,
            ino,
            class: Class::Data,
            asked: Hold::Read,
        })?;
    }
    Ok(blockers)
}

/// Whether fewer blocks are free than are wanted beside those that are kept for Data Write holds.
fn is_short(draft: &Draft, wanted: u16) -> bool
    ensures { (sectors : List (List ℕ)) → result ≡ nat_lt (free_count draft.now.image) (wanted + reserved (known draft.now sectors)) }
{
    let reserved = u32::from(UNFLUSHED_BLOCKS) * u32::from(table_of(draft).writes());
    u32::from(draft.image.free()) < u32::from(wanted) + reserved
}

/// Asks back all that blocks the head of the line, and answers the first of it; nothing where nothing does.
pub(crate) fn rest(
    draft: &mut Draft,
    client: ClientId,
    number: u64,
    blockers: &Blockers,
) -> Result<Option<Block>, Oom>
    requires { CanBeAsked blockers.now }
    ensures { IfOk result (λ named. (asked : Asked) → IsHead draft.old (as_request client number asked) → AreBlockers (known draft.old []) (as_request client number asked) blockers.now → is_empty (blockers.now.to_ask ++ blockers.now.own) ≡ false
        → Serves (λ start. Unit {0}) (Unit {0}) draft.old draft.new named) }
{
    draft.revoke(blockers.to_ask.as_slice())?;
    Ok(first_block(client, number, blockers))
}

/// The first of some blockers, as what blocks a request.
fn first_block(client: ClientId, number: u64, blockers: &Blockers) -> Option<Block>
    ensures { (asked : Asked) → result ≡ option_map (block_by (as_request client number asked)) (first_of (blockers.now.to_ask ++ blockers.now.own)) }
{
    match blockers.to_ask.as_slice().first() {
        Some(blocker) => Some(block_by(client, number, blocker)),
        None => match blockers.own.as_slice().first() {
            Some(blocker) => Some(block_by(client, number, blocker)),
            None => None,
        },
    }
}

/// A blocker, as what blocks a request.
fn block_by(client: ClientId, number: u64, blocker: &Blocker) -> Block
    ensures { (asked : Asked) → result ≡ block_by (as_request client number asked) blocker.now }
{
    Block {
        client,
        number,
        holder: blocker.client,
        ino: blocker.ino,
        class: blocker.class,
    }
}
