ghost use Rattle.std.specs.Prelude.{◌≡◌, ◌<◌, ◌∷◌, [], ◌++◌, All, OnErr, OnOk};
ghost use Rattle.cal_base.specs.Limits as limits;
ghost use Rattle.message.specs.Range.{IsMessage};
ghost use Rattle.server_draft.specs.Acts.{CanBeDone};
ghost use Rattle.server_draft.specs.declared.act.Act.TheVariants.{Tells, Commits, Drops};

use crate::act::{Act, Commit};
use cal_base::{ClientId, Items, Oom};
use message::Message;
use std::alloc::Global;
use std::marker::Model;

/// The acts of a step, in order. Each can be carried out: a message has a spelling and goes to a client of the
/// cluster, and blocks are laid into sectors of the disk.
#[derive(Drop)]
pub struct Acts {
    list: Items<Act>,
}

impl Model for Acts {
    ghost use Rattle.server_draft.specs.Acts.{CanBeDone};
    ghost use Rattle.std.specs.Prelude.{All, List};
    ghost use Rattle.server_draft.specs.declared.act.Act.{Act};

    ghost Value = { List Act };

    ghost view = { λ it. it.list };

    ghost invariant = { λ it. All CanBeDone it.list };
}

impl Acts {
    /// No acts. It takes no memory.
    pub fn new(alloc: Global) -> Acts
        ensures { result ≡ [] }
    {
        Acts {
            list: Items::new(alloc),
        }
    }

    /// A message is made for a client. After want of memory the acts are as they were.
    pub fn tell(&mut self, client: ClientId, message: Message) -> Result<(), Oom>
        requires client { client.0 < limits.clients }
        requires message { IsMessage message }
        ensures ok { OnOk result (self.new ≡ self.old ++ Tells client message ∷ []) }
        ensures err { OnErr result (self.new ≡ self.old) }
    {
        self.list.push(Act::Tells { client, message })?;
        Ok(())
    }

    /// A deed is made final, by blocks that are laid into sectors of the disk and then a transaction. After want of
    /// memory the acts are as they were.
    pub fn commit(&mut self, commit: Commit) -> Result<(), Oom>
        requires { All (λ lay. lay.0 < limits.sectors) commit.lays }
        ensures ok { OnOk result (self.new ≡ self.old ++ Commits commit ∷ []) }
        ensures err { OnErr result (self.new ≡ self.old) }
    {
        self.list.push(Act::Commits(commit))?;
        Ok(())
    }

    /// The request at the head of the line is dropped. After want of memory the acts are as they were.
    pub fn drop_head(&mut self) -> Result<(), Oom>
        ensures ok { OnOk result (self.new ≡ self.old ++ Drops ∷ []) }
        ensures err { OnErr result (self.new ≡ self.old) }
    {
        self.list.push(Act::Drops)?;
        Ok(())
    }

    /// The acts, in order.
    pub fn as_slice(&self) -> &[Act]
        ensures acts { result.now ≡ self.now }
        ensures each { All CanBeDone self.now }
    {
        self.list.as_slice()
    }

    /// The acts as a `Vec`, moved and not copied.
    pub fn into_vec(self) -> Vec<Act>
        ensures acts { result.items ≡ self }
        ensures each { All CanBeDone self }
    {
        self.list.into_vec()
    }
}
