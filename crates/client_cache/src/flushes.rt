ghost use Rattle.std.specs.Prelude.{◌≡◌, ◌≤◌, ◌<◌, ◌-◌, ◌^◌, ◌++◌, true, false, not, filter, find, option_map, IfOk, IfSome, OnOk, OnErr};
ghost use Rattle.cal_base.specs.Limits.{inodes};
ghost use Rattle.token_kind.specs.Flush.{IsFlush};
ghost use Rattle.token_kind.specs.Hold.{hold_number};
ghost use Rattle.client_cache.specs.Changes.{after_flushed, after_start, flush_left, flush_numbered, is_numbered, left_of, new_flush};
ghost use Rattle.client_cache.specs.IsKnown.{IsKnown};
ghost use Rattle.client_cache.specs.Known.{inode_at, is_settled};
ghost use Rattle.client_cache.specs.Reports.{flush_leaves, flush_number, reported, reported_at, reported_below, reports, IsReport};

use crate::cache::Cache;
use crate::holds::is_held;
use cal_base::{INODES, Ino, Oom};
use token_kind::{Class, Flush, Hold, Reported, ReportedList, Token};

impl Cache {
    /// Starts a flush of a file that is unflushed and of which no flush is outstanding. The flush has
    /// the number after that of the last one, from 1; it leaves Read or none of Data and Attr. From now
    /// on it is the last of the outstanding ones, and it is that record each time it is sent; only what it
    /// leaves may be raised, by a grant that is taken before it is done. Nothing of the file is unflushed
    /// any more. There are numbers for 2^64 - 1 flushes. After want of memory all is as it was.
    pub fn start_flush(&mut self, ino: Ino, leave_data: Hold, leave_attr: Hold) -> Result<(), Oom>
        requires ino { ino.0 < inodes }
        requires number { self.old.last_flush < 2 ^ 64 - 1 }
        requires unflushed { (inode_at self.old ino).file.unflushed ≡ true }
        requires settled { is_settled self.old ino ≡ true }
        requires leave_data { hold_number leave_data ≤ 1 }
        requires leave_attr { hold_number leave_attr ≤ 1 }
        ensures grammar { OnOk result (IsFlush (new_flush self.old ino leave_data leave_attr)) }
        ensures state { OnOk result (self.new ≡ after_start self.old (new_flush self.old ino leave_data leave_attr)) }
        ensures err { OnErr result (self.new ≡ self.old) }
    {
        let number = self.last_flush + 1;
        let file = &self.inodes[ino.0 as usize].file;
        let flush = file.to_flush(ino, leave_data, leave_attr, number)?;
        // What may want for memory comes before the first change of the file.
        self.flushes.push(flush)?;
        self.inodes[ino.0 as usize].clean();
        self.last_flush = number;
        Ok(())
    }

    /// The number of the last flush that was started, 0 before the first.
    pub fn last_flush(&self) -> u64
        ensures value { result ≡ self.now.last_flush }
        ensures known { IsKnown self.now }
    {
        self.last_flush
    }

    /// The outstanding flushes, in the order of their numbers, as they are to be sent again: each is one
    /// that a message spells, and at most one is of a file.
    pub fn outstanding(&self) -> &[Flush]
        ensures value { result.now ≡ self.now.flushes }
        ensures known { IsKnown self.now }
    {
        &self.flushes
    }

    /// Takes the outstanding flush with this number as done: the holds of its file's bytes and size become
    /// what it left. The file; none exactly where no outstanding flush has that number, and then nothing
    /// changes. It takes no memory.
    pub fn flushed(&mut self, number: u64) -> Option<Ino>
        ensures file { result ≡ option_map (λ flush. flush.ino) (flush_numbered self.old number) }
        ensures bound { IfSome result (λ ino. ino.0 < inodes) }
        ensures state { self.new ≡ after_flushed self.old number }
    {
        // An outstanding flush is of the volume: that is kept by the type, and told here.
        let _ = &self.flushes;
        match self.left_by(number) {
            Some(left) => {
                self.settle(number, left);
                Some(left.ino)
            }
            None => None,
        }
    }

    /// What the outstanding flush with a number leaves.
    fn left_by(&self, number: u64) -> Option<Left>
        ensures { result ≡ option_map left_of (flush_numbered self.now number) }
    {
        match self.numbered(number) {
            Some(flush) => Some(Left {
                ino: flush.ino,
                leave_data: flush.leave_data,
                leave_attr: flush.leave_attr,
            }),
            None => None,
        }
    }

    fn numbered(&self, number: u64) -> Option<&Flush>
        ensures { option_map (λ flush. flush.now) result ≡ flush_numbered self.now number }
    {
        self.flushes.iter().find(|flush| flush.number == number)
    }

    /// Drops an outstanding flush, and makes the holds what it left.
    fn settle(&mut self, number: u64, left: Left)
        requires { left.ino.0 < inodes }
        ensures { self.new ≡ flush_left self.old number left }
    {
        let alloc = *self.inodes.allocator();
        drop_flush(&mut self.flushes, number);
        self.inodes[left.ino.0 as usize].flushed(alloc, left.leave_data, left.leave_attr);
    }

    /// All holds, by inode, then class, at most 2,048, as a message spells each. Data and Attr of a file
    /// with an outstanding flush are as they were before it, with its number and what it leaves.
    pub fn holds(&self) -> Result<ReportedList, Oom>
        ensures value { IfOk result (λ holds. holds ≡ reports self.now) }
        ensures report { IfOk result (IsReport self.now) }
    {
        // What stands at all times is kept by the type, and told here.
        let _ = &self.flushes;
        let holds = self.list_holds()?;
        Ok(holds)
    }

    fn list_holds(&self) -> Result<ReportedList, Oom>
        ensures { IfOk result (λ holds. holds ≡ reports self.now) }
    {
        let mut holds = ReportedList::new(*self.inodes.allocator());
        for number in 0..INODES as u32 {
            self.put_reports(&mut holds, Ino(number))?;
        }
        Ok(holds)
    }

    fn put_reports(&self, holds: &mut ReportedList, ino: Ino) -> Result<(), Oom>
        ensures { OnOk result (holds.new ≡ holds.old ++ reported_at self.now ino) }
    {
        self.put_report(holds, ino, Class::Names)?;
        self.put_report(holds, ino, Class::Data)?;
        self.put_report(holds, ino, Class::Attr)?;
        self.put_report(holds, ino, Class::Open)
    }

    fn put_report(&self, holds: &mut ReportedList, ino: Ino, class: Class) -> Result<(), Oom>
        ensures { OnOk result (holds.new ≡ holds.old ++ reported self.now ino class) }
    {
        let hold = self.held(ino, class);
        let flush = self.flush(ino);
        if is_held(hold) {
            holds.push(Reported {
                token: Token { ino, class, hold },
                flush: flush_number(class, flush),
                leave: flush_leaves(class, flush),
            })?;
        }
        Ok(())
    }
}

/// A file, and what its flush leaves of Data and Attr.
#[derive(Clone, Copy, Debug, PartialEq, Eq)]
pub struct Left {
    pub(crate) ino: Ino,
    pub(crate) leave_data: Hold,
    pub(crate) leave_attr: Hold,
}

/// The number of a flush as a report has it with a class.
fn flush_number(class: Class, flush: Option<&Flush>) -> u64
    ensures { result ≡ flush_number class (option_map (λ flush. flush.now) flush.entry) }
{
    match flush {
        None => 0,
        Some(flush) => match class {
            Class::Names => 0,
            Class::Data => flush.number,
            Class::Attr => flush.number,
            Class::Open => 0,
        },
    }
}

/// What a flush leaves of a class.
fn flush_leaves(class: Class, flush: Option<&Flush>) -> Hold
    ensures { result ≡ flush_leaves class (option_map (λ flush. flush.now) flush.entry) }
{
    match flush {
        None => Hold::None,
        Some(flush) => match class {
            Class::Names => Hold::None,
            Class::Data => flush.leave_data,
            Class::Attr => flush.leave_attr,
            Class::Open => Hold::None,
        },
    }
}

/// Drops the outstanding flush with a number.
fn drop_flush(flushes: &mut Vec<Flush>, number: u64)
    ensures { flushes.new.items ≡ filter (λ flush. not (is_numbered number flush)) flushes.old.items }
{
    flushes.retain(
        |flush: &Flush| -> bool
            ensures { result ≡ not (is_numbered number flush.now) }
        { flush.number != number },
    );
}
