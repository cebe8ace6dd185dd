ghost use Rattle.std.specs.Prelude.{◌≡◌, ℕ, List, Ok, Err, IfOk, length};
ghost use Rattle.message.specs.Bodies.{acquire_at, body_of, change_message_at, done_at, grant_at, message_at, message_of, refuse_at, reply_at, wait_at};
ghost use Rattle.message.specs.Decoding.{Answers, Reads};
ghost use Rattle.message.specs.Range.{IsMessage};
ghost use Rattle.message.specs.Spelling.{message_bytes};
ghost use Rattle.message.specs.declared.message.Message.{Message};

use crate::input::Input;
use crate::message::Message;
use crate::stop::Stop;
use change_reply::{BadReply, take_reply};
use std::alloc::Global;
use tree_law::Reply;

/// Why bytes were not decoded.
#[derive(Clone, Copy, Debug, PartialEq, Eq)]
pub enum DecodeError {
    /// The bytes are no message. `at` is the place, from 0, of the first byte of the first field that
    /// is outside the grammar, the length where bytes are missing, or the place of the first byte too
    /// many.
    BadMessage { at: usize },
    OutOfMemory,
}

impl<'a> Input<'a> {
    fn acquire(&mut self, alloc: Global) -> Result<Message, Stop>
        ensures { Reads result self.new.rest.now (acquire_at self.old.rest.now) }
    {
        let number = self.call_number()?;
        let want = self.want(alloc)?;
        Ok(Message::Acquire { number, want })
    }

    fn grant(&mut self, alloc: Global) -> Result<Message, Stop>
        ensures { Reads result self.new.rest.now (grant_at self.old.rest.now) }
    {
        let number = self.call_number()?;
        let items = self.grant_items(alloc)?;
        Ok(Message::Grant { number, items })
    }

    fn refuse(&mut self) -> Result<Message, Stop>
        ensures { Reads result self.new.rest.now (refuse_at self.old.rest.now) }
    {
        let number = self.call_number()?;
        let free = self.u16()?;
        let needed = self.u16()?;
        Ok(Message::Refuse {
            number,
            free,
            needed,
        })
    }

    fn change_message(&mut self, alloc: Global) -> Result<Message, Stop>
        ensures { Reads result self.new.rest.now (change_message_at self.old.rest.now) }
    {
        let number = self.call_number()?;
        let call = self.change(alloc)?;
        Ok(Message::Change { number, call })
    }

    fn reply(&mut self) -> Result<Reply, Stop>
        ensures { Reads result self.new.rest.now (reply_at self.old.rest.now) }
    {
        let left = self.rest.len();
        match take_reply(&mut self.rest) {
            Ok(reply) => Ok(reply),
            Err(BadReply::Unknown) => Err(Stop::Outside { left }),
            Err(BadReply::Short) => Err(Stop::Outside { left: 0 }),
        }
    }

    fn done(&mut self) -> Result<Message, Stop>
        ensures { Reads result self.new.rest.now (done_at self.old.rest.now) }
    {
        let number = self.call_number()?;
        let reply = self.reply()?;
        Ok(Message::Done { number, reply })
    }

    fn wait(&mut self) -> Result<Message, Stop>
        ensures { Reads result self.new.rest.now (wait_at self.old.rest.now) }
    {
        let number = self.call_number()?;
        let client = self.client()?;
        Ok(Message::Wait { number, client })
    }

    /// The fields of a message whose kind has this byte and begins so many bytes from the end.
    fn body(&mut self, alloc: Global, kind: u8, left: usize) -> Result<Message, Stop>
        ensures { (field : List ℕ) → length field ≡ left → Reads result self.new.rest.now (body_of field kind self.old.rest.now) }
    {
        match kind {
            1 => self.acquire(alloc),
            2 => self.grant(alloc),
            3 => self.refuse(),
            4 => self.change_message(alloc),
            5 => self.done(),
            6 => Ok(Message::Flush(self.flush(alloc)?)),
            7 => Ok(Message::Flushed {
                number: self.u64()?,
            }),
            8 => Ok(Message::Revoke(self.revoke(alloc)?)),
            9 => Ok(Message::Release(self.release(alloc)?)),
            10 => Ok(Message::Ask),
            11 => Ok(Message::Piece(self.piece(alloc)?)),
            12 => self.wait(),
            13 => Ok(Message::Admit),
            _ => Err(Stop::Outside { left }),
        }
    }

    #[tactic(auto, unfolding(crate::specs::Bodies::message_at))]
    fn message(&mut self, alloc: Global) -> Result<Message, Stop>
        ensures { Reads result self.new.rest.now (message_at self.old.rest.now) }
    {
        let left = self.rest.len();
        let kind = self.byte()?;
        self.body(alloc, kind, left)
    }
}

/// The message that these bytes spell, or the place of the fault.
#[tactic(auto, unfolding(crate::specs::Bodies::message_of))]
fn message_of(alloc: Global, bytes: &[u8]) -> Result<Message, DecodeError>
    ensures { Answers result (message_of bytes.now) }
{
    let mut input = Input { rest: bytes };
    match input.message(alloc) {
        Err(Stop::OutOfMemory) => Err(DecodeError::OutOfMemory),
        Err(Stop::Outside { left }) => Err(DecodeError::BadMessage {
            at: bytes.len().saturating_sub(left),
        }),
        Ok(message) => {
            if input.rest.is_empty() {
                Ok(message)
            } else {
                Err(DecodeError::BadMessage {
                    at: bytes.len().saturating_sub(input.rest.len()),
                })
            }
        }
    }
}

/// The message that these bytes spell, all of them. A message is decoded exactly from its one spelling;
/// any other bytes are `BadMessage`.
pub fn decode(alloc: Global, bytes: &[u8]) -> Result<Message, DecodeError>
    ensures exact { Answers result (message_of bytes.now) }
    ensures spelled { IfOk result (λ message. IsMessage message × (bytes.now ≡ message_bytes message)) }
    ensures again { (message : Message) → IsMessage message → bytes.now ≡ message_bytes message → Answers result (Ok message) }
{
    message_of(alloc, bytes)
}
