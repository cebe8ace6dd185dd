ghost use Rattle.std.specs.Prelude.{◌≡◌, ℕ, List};
ghost use Rattle.message.specs.Decoding.{Reads};
ghost use Rattle.message.specs.Calls.{change_at, change_of, rename_at, want_at, want_of};

use crate::input::Input;
use crate::stop::Stop;
use std::alloc::Global;
use tree_law::{Call, Want};

impl<'a> Input<'a> {
    fn rename(&mut self, alloc: Global) -> Result<Call, Stop>
        ensures { Reads result self.new.rest.now (rename_at self.old.rest.now) }
    {
        let old_path = self.path(alloc)?;
        let new_path = self.path(alloc)?;
        Ok(Call::Rename(old_path, new_path))
    }

    /// A change of the tree: its kind, and a path, or two.
    #[tactic(auto, unfolding(crate::specs::Calls::change_at))]
    pub(crate) fn change(&mut self, alloc: Global) -> Result<Call, Stop>
        ensures { Reads result self.new.rest.now (change_at self.old.rest.now) }
    {
        let left = self.rest.len();
        let kind = self.byte()?;
        match kind {
            1 => Ok(Call::Create(self.path(alloc)?)),
            2 => Ok(Call::Mkdir(self.path(alloc)?)),
            3 => Ok(Call::Unlink(self.path(alloc)?)),
            4 => Ok(Call::Rmdir(self.path(alloc)?)),
            5 => self.rename(alloc),
            _ => Err(Stop::Outside { left }),
        }
    }

    /// What tokens are wanted for: its kind, and a path or an inode.
    #[tactic(auto, unfolding(crate::specs::Calls::want_at))]
    pub(crate) fn want(&mut self, alloc: Global) -> Result<Want, Stop>
        ensures { Reads result self.new.rest.now (want_at self.old.rest.now) }
    {
        let left = self.rest.len();
        let kind = self.byte()?;
        match kind {
            1 => Ok(Want::Stat(self.path(alloc)?)),
            2 => Ok(Want::Open(self.path(alloc)?)),
            3 => Ok(Want::Readdir(self.path(alloc)?)),
            4 => Ok(Want::Read(self.inode()?)),
            5 => Ok(Want::Write(self.inode()?)),
            _ => Err(Stop::Outside { left }),
        }
    }
}
