ghost use Rattle.std.specs.Prelude.{◌≡◌, ◌<◌, ◌-◌, ◌^◌, OnOk, false, true};
ghost use Rattle.client_cache.specs.Known.{inode_at, is_settled};
ghost use Rattle.outbox.specs.Sending.{put_all};
ghost use Rattle.cluster_law.specs.Book.{Flushes, Lowers, Remembers};
ghost use Rattle.client_book.specs.Sound.{IsRemembered};
ghost use Rattle.cluster_law.specs.Lists.{is_empty};
ghost use Rattle.client_book.specs.Memory.{lowered_in, lowering_of, revoked_in};
ghost use Rattle.client_book.specs.Made.{lowered_messages, revoking_in};

use crate::carrying::{asked_or_read, is_empty, keep_above, lower_all, start};
use crate::memory::Memory;
use cal_base::{Ino, Oom};
use message::Message;
use outbox::Outbox;
use token_kind::{Class, HoldList, Release, Revoke};

impl Memory {
    /// Takes a Revoke: it is about the classes that are held above what is asked. While a flush of the
    /// file is under way it waits; where something of the file is unflushed a flush starts that leaves
    /// what is asked; else the holds are lowered and released.
    pub fn revoke(&mut self, revoke: Revoke, out: &mut Outbox) -> Result<(), Oom>
        requires revoke { IsRemembered revoke }
        requires room { self.old.known.last_flush < 2 ^ 64 - 1 }
        ensures state { OnOk result (self.new ≡ revoked_in self.old revoke.ino revoke.items) }
        ensures out { OnOk result (out.new ≡ put_all out.old (revoking_in self.old.known revoke.ino revoke.items)) }
    {
        let Revoke { ino, items } = revoke;
        let mut above = items.into_vec();
        keep_above(&self.cache, ino, &mut above);
        self.carry_out(ino, HoldList::from_vec(above), out)?;
        Ok(())
    }

    /// Carries out a Revoke of classes that are held above what it asks.
    #[tactic(auto, unfolding(outbox::specs::Sending::put_all))]
    fn carry_out(&mut self, ino: Ino, above: HoldList, out: &mut Outbox) -> Result<(), Oom>
        requires asked { is_empty above ≡ false → IsRemembered (record { ino = ino; items = above }) }
        requires room { self.old.known.last_flush < 2 ^ 64 - 1 }
        ensures state { OnOk result (self.new ≡ lowered_in (lowering_of self.old.known ino above) self.old ino above) }
        ensures out { OnOk result (out.new ≡ put_all out.old (lowered_messages (lowering_of self.old.known ino above) self.old.known ino above)) }
    {
        if is_empty(above.as_slice()) {
            return Ok(());
        }
        if self.cache.flushing(ino) {
            return self.remember(ino, above);
        }
        if self.cache.unflushed(ino) {
            self.leave(ino, above, out)
        } else {
            self.give_up(ino, above, out)
        }
    }

    /// A Revoke waits behind a flush.
    fn remember(&mut self, ino: Ino, items: HoldList) -> Result<(), Oom>
        requires { IsRemembered (record { ino = ino; items = items }) }
        ensures { OnOk result (self.new ≡ lowered_in Remembers self.old ino items) }
    {
        self.remembered.push(Revoke { ino, items })?;
        Ok(())
    }

    /// A flush starts that leaves what is asked.
    #[tactic(auto, unfolding(outbox::specs::Sending::put_all))]
    fn leave(&mut self, ino: Ino, items: HoldList, out: &mut Outbox) -> Result<(), Oom>
        requires asked { IsRemembered (record { ino = ino; items = items }) }
        requires room { self.old.known.last_flush < 2 ^ 64 - 1 }
        requires unflushed { (inode_at self.old.known ino).file.unflushed ≡ true }
        requires settled { is_settled self.old.known ino ≡ true }
        ensures state { OnOk result (self.new ≡ lowered_in Flushes self.old ino items) }
        ensures out { OnOk result (out.new ≡ put_all out.old (lowered_messages Flushes self.old.known ino items)) }
    {
        let leave_data = asked_or_read(Class::Data, items.as_slice());
        let leave_attr = asked_or_read(Class::Attr, items.as_slice());
        start(&mut self.cache, ino, leave_data, leave_attr, out)?;
        Ok(())
    }

    /// Holds are lowered and released.
    #[tactic(auto, unfolding(outbox::specs::Sending::put_all))]
    fn give_up(&mut self, ino: Ino, items: HoldList, out: &mut Outbox) -> Result<(), Oom>
        requires { IsRemembered (record { ino = ino; items = items }) }
        ensures state { OnOk result (self.new ≡ lowered_in Lowers self.old ino items) }
        ensures out { OnOk result (out.new ≡ put_all out.old (lowered_messages Lowers self.old.known ino items)) }
    {
        lower_all(&mut self.cache, ino, items.as_slice());
        out.send(&Message::Release(Release { ino, items }))?;
        Ok(())
    }
}
