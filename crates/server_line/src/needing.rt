ghost use Rattle.std.specs.Prelude.{◌≡◌, ◌≤◌, ◌++◌, ◌∷◌, [], ℕ, List, IfOk, OnOk, filter, map, not, if◌then◌else◌};
ghost use Rattle.cal_base.specs.Limits as limits;
ghost use Rattle.revocation.specs.Waiting.{IsWant};
ghost use Rattle.token_table.specs.Table.{is_data_write};
ghost use Rattle.tree_law.specs.Needs.{needs_of_want};
ghost use Rattle.volume_plan.specs.Shown.{shown};
ghost use Rattle.cluster_law.specs.Blocking.{is_shown, needs_write};
ghost use Rattle.cluster_law.specs.Tokens.{token_of};
ghost use Rattle.server_line.specs.Blocked.{CanBeAsked, IsGap};
ghost use Rattle.server_line.specs.Granted.{AreNeeds, names_in};
ghost use Rattle.server_line.specs.Known.{known};

use crate::resting::{Blockers, or_space, table_of};
use cal_base::{CLIENTS, ClientId, Oom, PATH_NAMES, UNFLUSHED_BLOCKS};
use image::Image;
use server_draft::Draft;
use std::alloc::Global;
use token_kind::{BlockerList, Class, Hold, Token, TokenList};
use token_table::TokenTable;
use tree_law::Want;

/// What stands between a client and what it wants.
#[derive(Drop)]
pub(crate) struct Gap {
    /// What it needs and the table doesn't show, in order.
    pub lacking: TokenList,
    /// What blocks that, in order.
    pub blockers: Blockers,
    /// How many blocks have to be free for it.
    pub wanted: u16,
}

/// What stands between a client and what it wants.
pub(crate) fn gap_of(
    alloc: Global,
    draft: &Draft,
    client: ClientId,
    want: &Want,
) -> Result<Gap, Oom>
    requires { IsWant want.now }
    ensures gap { IfOk result (λ gap. (sectors : List (List ℕ)) (number : ℕ) → IsGap (known draft.now sectors) client number want.now gap) }
    ensures askable { IfOk result (λ gap. CanBeAsked gap.blockers) }
{
    let needs = needs_of(alloc, &draft.image, want)?;
    let lacking = lacking_of(alloc, table_of(draft), client, needs.as_slice())?;
    let wanted = blocks_for(lacking.as_slice());
    let to_ask = table_of(draft).blockers(client, lacking.as_slice())?;
    let mut own = BlockerList::new(alloc);
    draft.desk.put_own(client, needs.as_slice(), &mut own)?;
    let blockers = or_space(alloc, draft, wanted, Blockers { to_ask, own })?;
    Ok(Gap {
        lacking,
        blockers,
        wanted,
    })
}

/// What a client needs for what it wants, in order.
fn needs_of(alloc: Global, image: &Image, want: &Want) -> Result<TokenList, Oom>
    requires { IsWant want.now }
    ensures needed { IfOk result (λ needs. needs ≡ map token_of (needs_of_want (shown image.now) want.now)) }
    ensures needs { IfOk result (AreNeeds image.now) }
{
    prove!(names_in(want) <= PATH_NAMES);
    prove!(image.clients() <= CLIENTS);
    let needs = image.needs(alloc, want)?;
    Ok(needs)
}

/// How many names the path of a want has.
fn names_in(want: &Want) -> usize
    ensures count { result ≡ names_in want.now }
    ensures few { result ≤ limits.path_names }
{
    match want {
        Want::Stat(path) => path.names().len(),
        Want::Open(path) => path.names().len(),
        Want::Readdir(path) => path.names().len(),
        Want::Read(_) => 0,
        Want::Write(_) => 0,
    }
}

/// Those of some needs that the table doesn't show for the client.
fn lacking_of(
    alloc: Global,
    table: &TokenTable,
    client: ClientId,
    needs: &[Token],
) -> Result<TokenList, Oom>
    ensures { IfOk result (λ lacking. lacking ≡ filter (λ need. not (is_shown table.now client need)) needs.now) }
{
    let mut lacking = TokenList::new(alloc);
    for need in needs {
        put_lacking(table, client, *need, &mut lacking)?;
    }
    Ok(lacking)
}

/// Puts a need that the table doesn't show for the client.
fn put_lacking(
    table: &TokenTable,
    client: ClientId,
    need: Token,
    lacking: &mut TokenList,
) -> Result<(), Oom>
    ensures { OnOk result (lacking.new ≡ lacking.old ++ (if not (is_shown table.now client need) then need ∷ [] else [])) }
{
    if need.hold.is_above(table.held(client, need.ino, need.class)) {
        lacking.push(need)?;
    }
    Ok(())
}

/// How many blocks have to be free for what lacks: as many as may be unflushed, where Data Write does.
fn blocks_for(lacking: &[Token]) -> u16
    ensures { result ≡ (if needs_write lacking.now then 16 else 0) }
{
    if needs_write(lacking) {
        u16::from(UNFLUSHED_BLOCKS)
    } else {
        0
    }
}

/// Whether one of some needs is Data Write.
fn needs_write(needs: &[Token]) -> bool
    ensures { result ≡ needs_write needs.now }
{
    needs.iter().any(|need| is_data_write(need))
}

/// Whether a need is Data Write.
fn is_data_write(need: &Token) -> bool
    ensures { result ≡ is_data_write need.now.class need.now.hold }
{
    need.class == Class::Data && need.hold == Hold::Write
}
