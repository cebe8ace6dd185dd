ghost use Rattle.std.specs.Prelude.{◌≡◌, ◌↔◌, IsTrue, OnOk, IfOk};
ghost use Rattle.tree_law.specs.declared.call.Call.{Call};
ghost use Rattle.tree_law.specs.declared.reply.Reply.{Reply};
ghost use Rattle.trace_reader.specs.Adding.{passed, with_entry, with_head, with_write};
ghost use Rattle.trace_reader.specs.Outcome.{GivesTrace, Leads};
ghost use Rattle.trace_reader.specs.Taking.{Changes, IsStepOf, Takes, TakesAnswer, TakesCall, TakesHalt, TakesSend, TakesStep, TellsReply};
ghost use Rattle.trace_reader.specs.declared.reading.Reading.{Reading};

use crate::adding::{push_entry, push_sent, push_write};
use crate::bodies::is_body;
use crate::events::{bare_step, event_of};
use crate::read_error::ReadTraceError;
use crate::reading::Reading;
use cal_base::{Blob, ClientId, Ino, NodeId, ServerId};
use cluster_law::{Answer, Halt, SectorWrite};
use line_words::ReadWordsError;
use reply_words::read_reply;
use run_trace::TraceItem;
use session::Packet;
use std::alloc::Global;
use token_kind::Block;
use trace_lines::{StepEvent, TraceLine};
use tree_law::{Call, Entry, Reply};

impl Reading {
    /// Takes the first line of a step.
    fn take_step(
        &mut self,
        alloc: Global,
        actor: Option<NodeId>,
        event: StepEvent,
    ) -> Result<(), ReadTraceError>
        ensures is { OnOk result (TakesStep self.old actor event self.new) }
        ensures again { (next : Reading) → TakesStep self.old actor event next → Leads next self.new result }
    {
        let Some(told) = event_of(actor, event) else {
            return Err(ReadTraceError::BadTrace);
        };
        self.close()?;
        self.calls.note(&told)?;
        self.step = Some(bare_step(alloc, actor, told));
        Ok(())
    }

    /// Takes the line of a write.
    fn take_write(&mut self, write: SectorWrite) -> Result<(), ReadTraceError>
        ensures is { OnOk result (Changes self.old (λ step. with_write step write) self.new) }
        ensures again { (next : Reading) → Changes self.old (λ step. with_write step write) next → Leads next self.new result }
    {
        match &mut self.step {
            None => Err(ReadTraceError::BadTrace),
            Some(step) => {
                push_write(step, write)?;
                Ok(())
            }
        }
    }

    /// Takes an entry.
    fn take_entry(&mut self, entry: Entry) -> Result<(), ReadTraceError>
        ensures is { OnOk result (Changes self.old (λ step. with_entry step «entry») self.new) }
        ensures again { (next : Reading) → Changes self.old (λ step. with_entry step «entry») next → Leads next self.new result }
    {
        match &mut self.step {
            None => Err(ReadTraceError::BadTrace),
            Some(step) => {
                push_entry(step, entry)?;
                Ok(())
            }
        }
    }

    /// The reply that a text tells to the call that this client has started under this number, and the call.
    fn told_reply(
        &self,
        alloc: Global,
        client: ClientId,
        number: u64,
        text: &[u8],
    ) -> Result<(Call, Reply), ReadTraceError>
        ensures is { IfOk result (λ told. TellsReply self.now.calls client number text.now told.0 told.1) }
        ensures again { (call : Call) (reply : Reply) → TellsReply self.now.calls client number text.now call reply → GivesTrace (call, reply) result }
    {
        let Some(call) = self.calls.call_of(client, number)? else {
            return Err(ReadTraceError::BadTrace);
        };
        match read_reply(alloc, &call, text) {
            Ok(reply) => Ok((call, reply)),
            Err(ReadWordsError::Form) => Err(ReadTraceError::BadTrace),
            Err(ReadWordsError::OutOfMemory) => Err(ReadTraceError::OutOfMemory),
        }
    }

    /// Takes the entry of a call.
    fn take_call_entry(
        &mut self,
        alloc: Global,
        client: ClientId,
        number: u64,
        new_ino: Option<Ino>,
        text: &[u8],
    ) -> Result<(), ReadTraceError>
        ensures is { OnOk result (TakesCall self.old client number new_ino text.now self.new) }
        ensures again { (next : Reading) → TakesCall self.old client number new_ino text.now next → Leads next self.new result }
    {
        let (call, reply) = self.told_reply(alloc, client, number, text)?;
        self.take_entry(Entry::Call {
            client,
            number,
            call,
            reply,
            new_ino,
        })
    }

    /// Takes the line of a packet.
    fn take_send(&mut self, alloc: Global, packet: Packet) -> Result<(), ReadTraceError>
        ensures is { OnOk result (TakesSend self.old packet self.new) }
        ensures again { (next : Reading) → TakesSend self.old packet next → Leads next self.new result }
    {
        if !is_body(alloc, packet.seq, packet.body.as_slice())? {
            return Err(ReadTraceError::BadTrace);
        }
        match &mut self.step {
            None => Err(ReadTraceError::BadTrace),
            Some(step) => {
                push_sent(step, packet)?;
                Ok(())
            }
        }
    }

    /// Whether the step under way is this node's.
    fn is_step_of(&self, node: NodeId) -> bool
        ensures { IsTrue result ↔ IsStepOf self.now node }
    {
        match &self.step {
            None => false,
            Some(step) => step.node == Some(node),
        }
    }

    /// Takes the line of an answer.
    fn take_answer(
        &mut self,
        alloc: Global,
        client: ClientId,
        number: u64,
        text: &[u8],
    ) -> Result<(), ReadTraceError>
        ensures is { OnOk result (TakesAnswer self.old client number text.now self.new) }
        ensures again { (next : Reading) → TakesAnswer self.old client number text.now next → Leads next self.new result }
    {
        if !self.is_step_of(NodeId::Client(client)) {
            return Err(ReadTraceError::BadTrace);
        }
        let (_, reply) = self.told_reply(alloc, client, number, text)?;
        match &mut self.step {
            None => Err(ReadTraceError::BadTrace),
            Some(step) => {
                step.answer = Some(Answer { number, reply });
                Ok(())
            }
        }
    }

    /// Takes the line of the head.
    fn take_head(&mut self, block: Block) -> Result<(), ReadTraceError>
        ensures is { OnOk result (Changes self.old (λ step. with_head step block) self.new) }
        ensures again { (next : Reading) → Changes self.old (λ step. with_head step block) next → Leads next self.new result }
    {
        match &mut self.step {
            None => Err(ReadTraceError::BadTrace),
            Some(step) => {
                step.head = Some(block);
                Ok(())
            }
        }
    }

    /// Takes the line of a halt.
    fn take_halt(&mut self, halt: Halt) -> Result<(), ReadTraceError>
        ensures is { OnOk result (TakesHalt self.old halt self.new) }
        ensures again { (next : Reading) → TakesHalt self.old halt next → Leads next self.new result }
    {
        if !(self.is_step_of(NodeId::Server(ServerId::A))
            || self.is_step_of(NodeId::Server(ServerId::B)))
        {
            return Err(ReadTraceError::BadTrace);
        }
        match &mut self.step {
            None => Err(ReadTraceError::BadTrace),
            Some(step) => {
                step.halt = Some(halt);
                Ok(())
            }
        }
    }

    /// Takes an item that is no step.
    fn take_passed(&mut self, item: TraceItem) -> Result<(), ReadTraceError>
        ensures is { OnOk result (self.new ≡ passed self.old item) }
        ensures again { (next : Reading) → next ≡ passed self.old item → Leads next self.new result }
    {
        self.close()?;
        self.items.push(item)?;
        Ok(())
    }

    /// Takes a line.
    pub fn take(&mut self, alloc: Global, line: TraceLine) -> Result<(), ReadTraceError>
        ensures is { OnOk result (Takes self.old line self.new) }
        ensures again { (next : Reading) → Takes self.old line next → Leads next self.new result }
    {
        match line {
            TraceLine::Step {
                index: _,
                actor,
                event,
            } => self.take_step(alloc, actor, event),
            TraceLine::Write(write) => self.take_write(write),
            TraceLine::CallEntry {
                client,
                number,
                new_ino,
                reply,
            } => self.take_call_entry(alloc, client, number, new_ino, reply.as_slice()),
            TraceLine::FlushEntry { client, ino } => self.take_entry(Entry::Flush { client, ino }),
            TraceLine::PurgeEntry { client } => self.take_entry(Entry::Purge { client }),
            TraceLine::Send { number: _, packet } => self.take_send(alloc, packet),
            TraceLine::Answer {
                client,
                number,
                reply,
            } => self.take_answer(alloc, client, number, reply.as_slice()),
            TraceLine::Head(block) => self.take_head(block),
            TraceLine::Halt { actor: _, halt } => self.take_halt(halt),
            TraceLine::Refused { line, cause } => {
                self.take_passed(TraceItem::Refused { line, cause })
            }
            TraceLine::Settled { line, cycles, how } => {
                self.take_passed(TraceItem::Settled { line, cycles, how })
            }
        }
    }
}
