ghost use Rattle.std.specs.Prelude.{◌≡◌, ◌≤◌, ◌<◌, ◌+◌, ◌^◌, ◌++◌, ℕ, IfOk, OnOk, length, option_to_list};
ghost use Rattle.cluster_law.specs.History.{writes_of as commit_writes, writes_of_acts};
ghost use Rattle.cluster_law.specs.ServerRules.{entries_of, entry_of};
ghost use Rattle.journal.specs.Opened.{opening_place};
ghost use Rattle.server_draft.specs.Acts.{acts_of, commit_of, deed_of};
ghost use Rattle.tree_law.specs.declared.entry.Entry.TheVariants.{Call as Called};
ghost use Rattle.server_writes.specs.Halted.{AreLeft, count_left, entries_left, left_by, may_stand};
ghost use Rattle.server_writes.specs.Planned.{entry_by, writes_by};

use crate::counting::writes_of;
use cal_base::{Ino, Items, Oom, Sector};
use journal::is_commit_opened;
use server_draft::{Act, Commit, Deed};
use std::alloc::Global;
use tree_law::{Asked, Call, Entry, Reply, Request};

/// The entries of what some acts commit, in order.
pub fn entries_of(alloc: Global, acts: &[Act]) -> Result<Items<Entry>, Oom>
    ensures { IfOk result (λ entries. (view : ℕ) → entries ≡ entries_of (acts_of view acts.now)) }
{
    let mut entries = Items::new(alloc);
    for act in acts {
        put_entry(&mut entries, act)?;
    }
    Ok(entries)
}

/// Puts the entry of an act at the end, if it commits one.
fn put_entry(entries: &mut Items<Entry>, act: &Act) -> Result<(), Oom>
    ensures { OnOk result (entries.new ≡ entries.old ++ entry_by act.now) }
{
    if let Act::Commits(commit) = act {
        if let Some(entry) = entry_of(&commit.deed)? {
            entries.push(entry)?;
        }
    }
    Ok(())
}

/// The entry of a deed: of a change, a flush and a purge.
fn entry_of(deed: &Deed) -> Result<Option<Entry>, Oom>
    ensures { IfOk result (λ entry. option_to_list entry ≡ entry_of (deed_of deed.now)) }
{
    match deed {
        Deed::Changes {
            request,
            reply,
            new_ino,
        } => match &request.asked {
            Asked::Want(_) => Ok(None),
            Asked::Change(call) => {
                let entry = call_entry(request, call, reply, *new_ino)?;
                Ok(Some(entry))
            }
        },
        Deed::Flushes { client, flush } => Ok(Some(Entry::Flush {
            client: *client,
            ino: flush.ino,
        })),
        Deed::Purges(client) => Ok(Some(Entry::Purge { client: *client })),
        Deed::Reaps(_) => Ok(None),
    }
}

/// The entry of a request's call.
fn call_entry(
    request: &Request,
    call: &Call,
    reply: &Reply,
    new_ino: Option<Ino>,
) -> Result<Entry, Oom>
    ensures { IfOk result (λ entry. entry ≡ Called request.now.client request.now.number call.now reply.now new_ino) }
{
    let call = copy_of(call)?;
    Ok(Entry::Call {
        client: request.client,
        number: request.number,
        call,
        reply: reply.clone()?,
        new_ino,
    })
}

/// A copy of a call.
fn copy_of(call: &Call) -> Result<Call, Oom>
    ensures { IfOk result (λ copy. copy ≡ call.now) }
{
    let copy = call.clone()?;
    Ok(copy)
}

/// The entries that a step leaves which halted, of those of all its acts. By the writes that the port kept these are
/// the entries of the commits whose opening write is there. Where the disk failed at the opening write of a commit,
/// that one's entry is the last, and it isn't known whether it stands. The step plans fewer than 2^64 writes. It takes
/// no memory.
pub fn entries_left(
    entries: Items<Entry>,
    acts: &[Act],
    kept: &[(u32, Sector)],
    failed: bool,
) -> Items<Entry>
    requires entries { (view : ℕ) → entries ≡ entries_of (acts_of view acts.now) }
    requires kept { (view : ℕ) → AreLeft (writes_of_acts (acts_of view acts.now)) kept.now }
    requires few { (view : ℕ) → length (writes_of_acts (acts_of view acts.now)) < 2 ^ 64 }
    ensures { (view : ℕ) → result ≡ entries_left failed kept.now (acts_of view acts.now) }
{
    let count = count_left(acts, kept, failed);
    let mut entries = entries.into_vec();
    entries.truncate(count);
    Items::from_vec(entries)
}

/// How many of the entries of some acts are left.
fn count_left(acts: &[Act], kept: &[(u32, Sector)], failed: bool) -> usize
    requires few { (view : ℕ) → length (writes_of_acts (acts_of view acts.now)) < 2 ^ 64 }
    ensures { (view : ℕ) → result ≡ count_left failed kept.now (acts_of view acts.now) }
{
    let mut before = 0;
    let mut count = 0;
    for act in acts {
        count += left_by(act, kept, before, failed);
        before += writes_of(act);
    }
    count
}

/// How many entries are left of an act, before which so many writes were planned.
fn left_by(act: &Act, kept: &[(u32, Sector)], before: usize, failed: bool) -> usize
    requires few { before + length (writes_by act.now) < 2 ^ 64 }
    ensures value { result ≡ left_by failed kept.now before act.now }
    ensures small { result ≤ 1 }
{
    match act {
        Act::Commits(commit) => {
            if may_stand(commit, kept, before, failed) {
                entry_count(&commit.deed)
            } else {
                0
            }
        }
        _ => 0,
    }
}

/// Whether a commit is final, or may be.
fn may_stand(commit: &Commit, kept: &[(u32, Sector)], before: usize, failed: bool) -> bool
    requires few { before + length (commit_writes (commit_of commit.now)) < 2 ^ 64 }
    ensures { result ≡ may_stand failed kept.now (before + length commit.now.lays + opening_place (length commit.now.homes)) }
{
    let homes = commit.homes.homes().len();
    let laid = before + commit.lays.len();
    is_commit_opened(kept, laid, homes) || failed && laid + homes + 1 == kept.len()
}

/// How many entries a deed has.
fn entry_count(deed: &Deed) -> usize
    ensures { result ≡ length (entry_of (deed_of deed.now)) }
{
    match deed {
        Deed::Changes { request, .. } => match &request.asked {
            Asked::Want(_) => 0,
            Asked::Change(_) => 1,
        },
        Deed::Flushes { .. } => 1,
        Deed::Purges(_) => 1,
        Deed::Reaps(_) => 0,
    }
}
