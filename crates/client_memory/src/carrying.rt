ghost use Rattle.std.specs.Prelude.{◌≡◌, ◌++◌, ◌∷◌, [], ◌<◌, ◌≤◌, ◌-◌, ◌^◌, All, List, OnOk, length, nat_lt, true};
ghost use Rattle.cal_base.specs.Limits.{inodes};
ghost use Rattle.client_cache.specs.Changes.{after_start, new_flush};
ghost use Rattle.client_cache.specs.Known.{inode_at, is_settled};
ghost use Rattle.client_cache.specs.Holds.{hold_in};
ghost use Rattle.message.specs.Range.{IsGrantItem};
ghost use Rattle.message.specs.declared.message.Message.TheVariants.{Flush as FlushMessage};
ghost use Rattle.outbox.specs.Sending.{put_in};
ghost use Rattle.token_kind.specs.Hold.{hold_number};
ghost use Rattle.token_kind.specs.declared.flush.Flush.{Flush as FlushRecord};
ghost use Rattle.client_book.specs.Memory.{above_in, item_in, items_in, lower_all};
ghost use Rattle.cluster_law.specs.Book.{asked_or_read};
ghost use Rattle.cluster_law.specs.Lists.{is_empty};

use cal_base::{Ino, Oom};
use client_cache::Cache;
use outbox::Outbox;
use token_kind::{Class, Flush, GrantItem, Hold};

/// Starts a flush of a file, and sends it.
pub(crate) fn start(
    cache: &mut Cache,
    ino: Ino,
    leave_data: Hold,
    leave_attr: Hold,
    out: &mut Outbox,
) -> Result<(), Oom>
    requires ino { ino.0 < inodes }
    requires room { cache.old.last_flush < 2 ^ 64 - 1 }
    requires unflushed { (inode_at cache.old ino).file.unflushed ≡ true }
    requires settled { is_settled cache.old ino ≡ true }
    requires leave_data { hold_number leave_data ≤ 1 }
    requires leave_attr { hold_number leave_attr ≤ 1 }
    ensures state { OnOk result (cache.new ≡ after_start cache.old (new_flush cache.old ino leave_data leave_attr)) }
    ensures out { OnOk result (out.new ≡ put_in out.old (FlushMessage (new_flush cache.old ino leave_data leave_attr))) }
{
    cache.start_flush(ino, leave_data, leave_attr)?;
    out.flush(last(cache.outstanding()))?;
    Ok(())
}

/// The last of flushes.
fn last(flushes: &[Flush]) -> &Flush
    requires { 1 ≤ length flushes.now }
    ensures { (before : List FlushRecord) (flush : FlushRecord) → flushes.now ≡ before ++ flush ∷ [] → result.now ≡ flush }
{
    &flushes[flushes.len() - 1]
}

/// Of the items of a Revoke those whose class is held above what is asked.
pub(crate) fn keep_above(cache: &Cache, ino: Ino, items: &mut Vec<(Class, Hold)>)
    ensures { items.new.items ≡ above_in cache.now ino items.old.items }
{
    items.retain(
        |item: &(Class, Hold)| -> bool
            ensures { result ≡ nat_lt (hold_number item.now.1) (hold_number (hold_in (inode_at cache.entry.now ino).holds item.now.0)) }
        { cache.held(ino, item.0).number() > item.1.number() },
    );
}

/// Whether a Revoke asks for nothing.
pub(crate) fn is_empty(items: &[(Class, Hold)]) -> bool
    ensures { result ≡ is_empty items.now }
{
    match items {
        [] => true,
        [_, ..] => false,
    }
}

/// What is asked of a class, or Read.
pub(crate) fn asked_or_read(class: Class, asked: &[(Class, Hold)]) -> Hold
    ensures { result ≡ asked_or_read class asked.now }
{
    for item in asked {
        if class == item.0 {
            return item.1;
        }
    }
    Hold::Read
}

/// Lowers holds of an inode, one after the other.
#[tactic(auto, unfolding(client_book::specs::Memory::lower_all))]
pub(crate) fn lower_all(cache: &mut Cache, ino: Ino, items: &[(Class, Hold)])
    ensures { cache.new ≡ lower_all cache.old ino items.now }
{
    for item in items {
        cache.lower(ino, item.0, item.1);
    }
}

/// Takes items of a Grant, one after the other.
#[tactic(auto, unfolding(client_book::specs::Memory::items_in))]
pub(crate) fn take_all(cache: &mut Cache, items: Vec<GrantItem>)
    requires { All IsGrantItem items.items }
    ensures { cache.new ≡ items_in cache.old items.items }
{
    for item in items {
        take_item(cache, item);
    }
}

/// Takes an item of a Grant that is expected.
fn take_item(cache: &mut Cache, item: GrantItem)
    requires { IsGrantItem item }
    ensures { cache.new ≡ item_in cache.old item }
{
    if cache.expects(&item) {
        cache.take(item);
    }
}
