ghost use Rattle.std.specs.Prelude.{◌≡◌, ◌+◌, ◌<◌, ◌-◌, ◌^◌, All, IfOk, OnOk, filter, length, not};
ghost use Rattle.client_cache.specs.Changes.{flush_numbered};
ghost use Rattle.outbox.specs.Sending.{put_all};
ghost use Rattle.client_book.specs.Sound.{IsRemembered};
ghost use Rattle.client_book.specs.Memory.{flushed_in, is_behind, revoked_all_in};
ghost use Rattle.client_book.specs.Made.{revoking_all_in, revoking_behind_in};

use crate::memory::Memory;
use cal_base::{Ino, Oom};
use outbox::Outbox;
use std::alloc::Global;
use std::mem;
use token_kind::Revoke;

impl Memory {
    /// Takes a Flushed: the flush with this number is done, and the Revokes behind it are carried out, in
    /// the order in which they came. Where no such flush is under way nothing changes.
    pub fn flushed(&mut self, number: u64, out: &mut Outbox) -> Result<(), Oom>
        requires room { self.old.known.last_flush + length self.old.remembered < 2 ^ 64 - 1 }
        ensures state { OnOk result (self.new ≡ flushed_in self.old number) }
        ensures out { OnOk result (out.new ≡ put_all out.old (revoking_behind_in self.old number (flush_numbered self.old.known number))) }
    {
        match self.cache.flushed(number) {
            Some(ino) => self.revoke_behind(ino, out),
            None => Ok(()),
        }
    }

    /// Carries out the Revokes behind a flush of a file.
    fn revoke_behind(&mut self, ino: Ino, out: &mut Outbox) -> Result<(), Oom>
        requires room { self.old.known.last_flush + length self.old.remembered < 2 ^ 64 - 1 }
        ensures state { OnOk result (self.new ≡ revoked_all_in (record { known = self.old.known; remembered = filter (λ revoke. not (is_behind ino revoke)) self.old.remembered }) (filter (is_behind ino) self.old.remembered)) }
        ensures out { OnOk result (out.new ≡ put_all out.old (revoking_all_in (record { known = self.old.known; remembered = filter (λ revoke. not (is_behind ino revoke)) self.old.remembered }) (filter (is_behind ino) self.old.remembered))) }
    {
        let behind = self.take_behind(ino)?;
        self.revoke_all(behind, out)?;
        Ok(())
    }

    /// The Revokes that wait behind a flush of a file, which wait no more.
    fn take_behind(&mut self, ino: Ino) -> Result<Vec<Revoke>, Oom>
        ensures state { OnOk result (self.new ≡ record { known = self.old.known; remembered = filter (λ revoke. not (is_behind ino revoke)) self.old.remembered }) }
        ensures behind { IfOk result (λ behind. behind.items ≡ filter (is_behind ino) self.old.remembered) }
        ensures each { IfOk result (λ behind. All IsRemembered behind.items) }
    {
        let all = mem::replace(&mut self.remembered, Vec::new(self.alloc));
        let (behind, others) = split(self.alloc, ino, all)?;
        self.remembered = others;
        Ok(behind)
    }

    /// Takes Revokes, one after the other.
    #[tactic(auto, unfolding(client_book::specs::Memory::revoked_all_in, client_book::specs::Made::revoking_all_in, outbox::specs::Sending::put_all))]
    fn revoke_all(&mut self, revokes: Vec<Revoke>, out: &mut Outbox) -> Result<(), Oom>
        requires each { All IsRemembered revokes.items }
        requires room { self.old.known.last_flush + length revokes.items < 2 ^ 64 - 1 }
        ensures state { OnOk result (self.new ≡ revoked_all_in self.old revokes.items) }
        ensures out { OnOk result (out.new ≡ put_all out.old (revoking_all_in self.old revokes.items)) }
    {
        for revoke in revokes {
            self.revoke(revoke, out)?;
        }
        Ok(())
    }
}

/// The Revokes of a file, and the others.
fn split(alloc: Global, ino: Ino, revokes: Vec<Revoke>) -> Result<(Vec<Revoke>, Vec<Revoke>), Oom>
    ensures behind { IfOk result (λ parts. parts.0.items ≡ filter (is_behind ino) revokes.items) }
    ensures others { IfOk result (λ parts. parts.1.items ≡ filter (λ revoke. not (is_behind ino revoke)) revokes.items) }
{
    let mut behind = Vec::new(alloc);
    let mut others = Vec::new(alloc);
    for revoke in revokes {
        if revoke.ino == ino {
            behind.push(revoke)?;
        } else {
            others.push(revoke)?;
        }
    }
    Ok((behind, others))
}
