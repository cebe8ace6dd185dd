ghost use Rattle.std.specs.Prelude.{◌≡◌, ◌&&◌, [], OnOk};
ghost use Rattle.message.specs.Range.{IsMessage};
ghost use Rattle.message.specs.declared.message.Message.TheVariants.{Flush as FlushMessage};
ghost use Rattle.token_kind.specs.Flush.{IsFlush};
ghost use Rattle.client_book.specs.Made.{is_kept_back};
ghost use Rattle.outbox.specs.Sending.{put_in, with_body};

use cal_base::{Blob, Items, Oom};
use message::{Message, encode, encode_flush};
use std::alloc::Global;
use std::marker::Model;
use token_kind::Flush;

/// The messages that a client makes in a step, as their bytes. A client that is moving between servers
/// keeps its flushes back.
#[derive(Drop)]
pub struct Outbox {
    alloc: Global,
    moving: bool,
    bodies: Items<Blob>,
}

impl Model for Outbox {
    ghost use Rattle.outbox.specs.Sending.{Sending};

    ghost Value = { Sending };

    ghost view = { λ out. record { moving = out.moving; bodies = out.bodies } };
}

impl Outbox {
    /// No messages yet. It takes no memory.
    pub fn new(alloc: Global, moving: bool) -> Outbox
        ensures { result ≡ record { moving = moving; bodies = [] } }
    {
        Outbox {
            alloc,
            moving,
            bodies: Items::new(alloc),
        }
    }

    /// Puts a message at the end, but for a flush while the client is moving.
    pub fn send(&mut self, message: &Message) -> Result<(), Oom>
        requires { IsMessage message.now }
        ensures { OnOk result (self.new ≡ put_in self.old message.now) }
    {
        if !(self.moving && is_kept_back(message)) {
            let body = encode(self.alloc, message)?;
            self.put(body)?;
        }
        Ok(())
    }

    /// Puts a flush at the end, but while the client is moving; the flush stays with the caller.
    pub fn flush(&mut self, flush: &Flush) -> Result<(), Oom>
        requires { IsFlush flush.now }
        ensures { OnOk result (self.new ≡ put_in self.old (FlushMessage flush.now)) }
    {
        if !self.moving {
            let body = encode_flush(self.alloc, flush)?;
            self.put(body)?;
        }
        Ok(())
    }

    /// The bytes of the messages, in order.
    pub fn into_bodies(self) -> Items<Blob>
        ensures { result ≡ self.bodies }
    {
        let Outbox {
            alloc: _,
            moving: _,
            bodies,
        } = self;
        bodies
    }

    fn put(&mut self, body: Vec<u8>) -> Result<(), Oom>
        ensures { OnOk result (self.new ≡ with_body self.old body.items) }
    {
        self.bodies.push(Blob::from_vec(body))?;
        Ok(())
    }
}

/// Whether a client that is moving keeps a message back: a flush.
fn is_kept_back(message: &Message) -> bool
    ensures { result ≡ is_kept_back message.now }
{
    match message {
        Message::Flush(_) => true,
        Message::Acquire { number: _, want: _ } => false,
        Message::Grant {
            number: _,
            items: _,
        } => false,
        Message::Refuse {
            number: _,
            free: _,
            needed: _,
        } => false,
        Message::Change { number: _, call: _ } => false,
        Message::Done {
            number: _,
            reply: _,
        } => false,
        Message::Flushed { number: _ } => false,
        Message::Revoke(_) => false,
        Message::Release(_) => false,
        Message::Ask => false,
        Message::Piece(_) => false,
        Message::Wait {
            number: _,
            client: _,
        } => false,
        Message::Admit => false,
    }
}
