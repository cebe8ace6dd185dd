ghost use Rattle.std.specs.Prelude.{◌≡◌, Option, OnOk, OnErr, slice_get, Contains};
ghost use Rattle.packet_links.specs.Links.{idle_link, sent, removed, cut, mended, IsRising, IsLeast};

use cal_base::Oom;
use std::alloc::Global;
use std::collections::BTreeSet;
use std::marker::Model;

/// One link: the numbers of the packets that wait on it, and whether it is cut.
#[derive(Drop)]
pub(crate) struct Link {
    waiting: BTreeSet<u64>,
    is_cut: bool,
}

impl Model for Link {
    ghost use Rattle.packet_links.specs.Links.{LinkValue, IsRising};

    ghost Value = { LinkValue };

    ghost view = { λ link. record { waiting = link.waiting.keys; is_cut = link.is_cut } };
}

impl Link {
    /// A link on which nothing waits, and which isn't cut. It takes no memory.
    pub(crate) fn new(alloc: Global) -> Link
        ensures { result ≡ idle_link }
    {
        Link {
            waiting: BTreeSet::new(alloc),
            is_cut: false,
        }
    }

    /// Puts a packet on the link, unless it is cut. After want of memory the link is as it was.
    pub(crate) fn send(&mut self, number: u64) -> Result<(), Oom>
        ensures ok { OnOk result (self.new ≡ sent number self.old) }
        ensures err { OnErr result (self.new ≡ self.old) }
        ensures rise { IsRising self.old.waiting → IsRising self.new.waiting }
    {
        if !self.is_cut {
            self.waiting.insert(number)?;
        }
        Ok(())
    }

    /// Takes a packet off the link, if it waits there.
    pub(crate) fn remove(&mut self, number: u64)
        ensures value { self.new ≡ removed number self.old }
        ensures rise { IsRising self.new.waiting }
    {
        self.waiting.remove(&number);
    }

    /// Cuts the link: what waits there is lost.
    pub(crate) fn cut(&mut self)
        ensures value { self.new ≡ cut self.old }
        ensures rise { IsRising self.new.waiting }
    {
        self.waiting.clear();
        self.is_cut = true;
    }

    /// Mends the link: what is sent there waits again.
    pub(crate) fn mend(&mut self)
        ensures { self.new ≡ mended self.old }
    {
        self.is_cut = false;
    }

    /// The least number that waits on the link.
    pub(crate) fn first(&self) -> Option<u64>
        ensures head { result ≡ slice_get self.now.waiting 0 }
        ensures least { IsLeast (Contains self.now.waiting) result }
    {
        self.waiting.first().copied()
    }

    /// Whether the link is cut.
    pub(crate) fn is_cut(&self) -> bool
        ensures { result ≡ self.now.is_cut }
    {
        self.is_cut
    }
}
