ghost use Rattle.std.specs.Prelude.{◌≡◌, ◌<◌, ◌-◌, ◌^◌, All, IfOk, OnOk, length, true};
ghost use Rattle.cal_base.specs.Limits.{inodes};
ghost use Rattle.cal_base.specs.declared.identity.Ino.{Ino as Inode};
ghost use Rattle.client_cache.specs.AfterAnswer.{after_answer};
ghost use Rattle.client_cache.specs.Changes.{after_lower, after_start, new_flush};
ghost use Rattle.client_cache.specs.Covered.{IsSpelled, is_answerable};
ghost use Rattle.client_cache.specs.IsKnown.{IsKnown};
ghost use Rattle.client_cache.specs.Known.{inode_at, is_settled, part_of};
ghost use Rattle.client_cache.specs.Next.{next_of};
ghost use Rattle.client_cache.specs.declared.next_step.Next.TheVariants.{Answer, Flushes, LastClose};
ghost use Rattle.message.specs.Range.{IsGrantItem};
ghost use Rattle.message.specs.declared.message.Message.TheVariants.{Flush as FlushMessage};
ghost use Rattle.outbox.specs.Sending.{put_all, put_in};
ghost use Rattle.token_kind.specs.declared.hold.Hold.TheVariants.{Read};
ghost use Rattle.tree_law.specs.Descriptors.{opened};
ghost use Rattle.tree_law.specs.Needs.{want_of};
ghost use Rattle.tree_law.specs.Part.{answer_in};
ghost use Rattle.cluster_law.specs.Sight.{file_if_any};
ghost use Rattle.client_book.specs.Sound.{first_memory};
ghost use Rattle.client_book.specs.Memory.{items_in, written_back_in};
ghost use Rattle.client_book.specs.Made.{writing_back_in};
ghost use Rattle.client_book.specs.Sound.{IsRemembered};

use crate::carrying::{start, take_all};
use cal_base::{Ino, Oom};
use client_cache::{Cache, Next};
use outbox::Outbox;
use std::alloc::Global;
use std::marker::Model;
use token_kind::{Class, GrantItemList, Hold, Revoke};
use tree_law::{Call, Reply, Want};

/// What a client has in memory of files: its cache, and the Revokes that wait behind flushes, in the
/// order in which they came.
#[derive(Drop)]
pub struct Memory {
    pub(crate) alloc: Global,
    pub(crate) cache: Cache,
    pub(crate) remembered: Vec<Revoke>,
}

impl Model for Memory {
    ghost use Rattle.std.specs.Prelude.{All};
    ghost use Rattle.client_book.specs.Memory.{Memory as MemoryValue};
    ghost use Rattle.client_book.specs.Sound.{IsRemembered};

    ghost Value = { MemoryValue };

    ghost view = { λ memory. record { known = memory.cache; remembered = memory.remembered.items } };

    ghost invariant = { λ memory. All IsRemembered memory.remembered.items };
}

impl Memory {
    /// Of a client that has done nothing: nothing is held, and nothing waits.
    pub fn new(alloc: Global) -> Result<Memory, Oom>
        ensures { IfOk result (λ memory. memory ≡ first_memory) }
    {
        let cache = Cache::new(alloc)?;
        Ok(Memory {
            alloc,
            cache,
            remembered: Vec::new(alloc),
        })
    }

    /// Takes the items of a Grant, but those that come without what they should bring. It takes no
    /// memory.
    pub fn take(&mut self, items: GrantItemList)
        requires { All IsGrantItem items }
        ensures { self.new ≡ record { known = items_in self.old.known items; remembered = self.old.remembered } }
    {
        take_all(&mut self.cache, items.into_vec());
    }

    /// Writes the file behind a descriptor back: where something of it is unflushed and no flush of it is
    /// under way, a flush starts that leaves Read of its bytes and its size.
    #[tactic(auto, unfolding(outbox::specs::Sending::put_all))]
    pub fn write_back(&mut self, fd: u8, out: &mut Outbox) -> Result<(), Oom>
        requires room { self.old.known.last_flush < 2 ^ 64 - 1 }
        ensures state { OnOk result (self.new ≡ written_back_in self.old (file_if_any (opened self.old.known.table fd))) }
        ensures out { OnOk result (out.new ≡ put_all out.old (writing_back_in self.old.known (file_if_any (opened self.old.known.table fd)))) }
    {
        match self.cache.behind(fd) {
            Some(ino) => self.write_file_back(ino, out),
            None => Ok(()),
        }
    }

    #[tactic(auto, unfolding(outbox::specs::Sending::put_all))]
    fn write_file_back(&mut self, ino: Ino, out: &mut Outbox) -> Result<(), Oom>
        requires ino { ino.0 < inodes }
        requires room { self.old.known.last_flush < 2 ^ 64 - 1 }
        ensures state { OnOk result (self.new ≡ written_back_in self.old (Some ino)) }
        ensures out { OnOk result (out.new ≡ put_all out.old (writing_back_in self.old.known (Some ino))) }
    {
        if self.cache.unflushed(ino) {
            if !self.cache.flushing(ino) {
                self.flush(ino, out)?;
            }
        }
        Ok(())
    }

    /// Starts a flush of a file before a call: it leaves Read of the file's bytes and its size.
    pub fn flush(&mut self, ino: Ino, out: &mut Outbox) -> Result<(), Oom>
        requires ino { ino.0 < inodes }
        requires room { self.old.known.last_flush < 2 ^ 64 - 1 }
        requires unflushed { (inode_at self.old.known ino).file.unflushed ≡ true }
        requires settled { is_settled self.old.known ino ≡ true }
        ensures state { OnOk result (self.new ≡ record { known = after_start self.old.known (new_flush self.old.known ino Read Read); remembered = self.old.remembered }) }
        ensures out { OnOk result (out.new ≡ put_in out.old (FlushMessage (new_flush self.old.known ino Read Read))) }
    {
        start(&mut self.cache, ino, Hold::Read, Hold::Read, out)?;
        Ok(())
    }

    /// What a client does with a call now, as its cache tells.
    pub fn next(&self, call: &Call) -> Next
        requires { IsSpelled call.now }
        ensures value { result ≡ next_of self.now.known call.now }
        ensures answers { result ≡ Answer → is_answerable self.now.known call.now ≡ true }
        ensures closes { (ino : Inode) → result ≡ LastClose ino → is_answerable self.now.known call.now ≡ true }
        ensures flushes { (ino : Inode) → result ≡ Flushes ino → (is_settled self.now.known ino ≡ true) × ((inode_at self.now.known ino).file.unflushed ≡ true) }
        ensures known { IsKnown self.now.known }
    {
        // What the cache's type keeps is told by this call.
        let _ = self.cache.last_flush();
        self.cache.next(call)
    }

    /// Answers a covered call, or carries out a last `close`, as the cache does.
    pub fn answer(&mut self, call: &Call) -> Result<Reply, Oom>
        requires spelled { IsSpelled call.now }
        requires answerable { is_answerable self.old.known call.now ≡ true }
        ensures reply { IfOk result (λ reply. answer_in (part_of self.old.known) call.now ≡ Some reply) }
        ensures state { OnOk result (self.new ≡ record { known = after_answer self.old.known call.now; remembered = self.old.remembered }) }
    {
        let reply = self.cache.answer(call)?;
        Ok(reply)
    }

    /// What tokens are asked of a server for a call.
    pub fn want(&self, call: &Call) -> Result<Option<Want>, Oom>
        ensures value { IfOk result (λ want. want ≡ want_of self.now.known.table call.now) }
        ensures known { IsKnown self.now.known }
    {
        // What the cache's type keeps is told by this call.
        let _ = self.cache.last_flush();
        let want = self.cache.want(call)?;
        Ok(want)
    }

    /// Lowers a hold to the lesser of what it is and another. It takes no memory.
    pub fn lower(&mut self, ino: Ino, class: Class, to: Hold)
        ensures { self.new ≡ record { known = after_lower self.old.known ino class to; remembered = self.old.remembered } }
    {
        self.cache.lower(ino, class, to);
    }

    /// The cache.
    pub fn cache(&self) -> &Cache
        ensures { result.now ≡ self.now.known }
    {
        &self.cache
    }

    /// The number of the last flush that was started, 0 before the first.
    pub fn last_flush(&self) -> u64
        ensures value { result ≡ self.now.known.last_flush }
        ensures known { IsKnown self.now.known }
    {
        self.cache.last_flush()
    }

    /// How many Revokes wait behind flushes.
    pub fn remembered(&self) -> usize
        ensures value { result ≡ length self.now.remembered }
        ensures each { All IsRemembered self.now.remembered }
    {
        self.remembered.len()
    }
}
