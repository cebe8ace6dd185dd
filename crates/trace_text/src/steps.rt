ghost use Rattle.std.specs.Prelude.{◌≡◌, ◌+◌, ◌<◌, ◌^◌, ◌++◌, codes, length, Some, OnOk};
ghost use Rattle.std.specs.Fmt.{decimal};
ghost use Rattle.cal_base.specs.declared.identity.NodeId.TheVariants.{Client};
ghost use Rattle.trace_text.specs.Line.{line, actor_word};
ghost use Rattle.trace_text.specs.Events.{start_text};
ghost use Rattle.trace_text.specs.Steps.{covered_step, deeds_text, step_line, step_text, words_text};

use crate::entries::{put_answer, put_answer_line, put_call_entry, put_entries};
use crate::events::{put_event, put_start};
use crate::packets::put_packets;
use crate::sectors::put_writes;
use crate::serving::{put_halt, put_head};
use crate::words::{put_actor, put_node};
use cal_base::{ClientId, Ino, NodeId, Oom, View};
use cluster_law::TraceStep;
use reply_text::{put, put_field};
use tree_law::{Call, Reply};

/// Where a step stands in its run: what its lines tell and the step itself doesn't have.
#[derive(Clone, Copy, Debug)]
pub struct Place {
    /// How many steps were made before it.
    pub step: u64,
    /// How many packets were sent before it.
    pub packet: u64,
    /// The number of the call that it starts, if it starts one.
    pub call: u64,
    /// The view that it opens, if it opens one.
    pub view: View,
}

/// Puts a step's first line.
fn put_step_line(text: &mut Vec<u8>, place: Place, step: &TraceStep) -> Result<(), Oom>
    ensures { OnOk result (text.new.items ≡ text.old.items ++ line (step_line place step.now)) }
{
    put_field(text, "step ", place.step)?;
    put_actor(text, step.node)?;
    put(text, " ")?;
    put_event(text, place.call, place.view.0, &step.event)?;
    put(text, "\n")
}

/// Puts what a step did to the disk and the file tree.
fn put_deeds(text: &mut Vec<u8>, step: &TraceStep) -> Result<(), Oom>
    ensures { OnOk result (text.new.items ≡ text.old.items ++ deeds_text step.now) }
{
    put_writes(text, step.writes.as_slice())?;
    put_entries(text, step.entries.as_slice())
}

/// Puts what the node of a step says.
fn put_words(text: &mut Vec<u8>, step: &TraceStep) -> Result<(), Oom>
    ensures { OnOk result (text.new.items ≡ text.old.items ++ words_text step.now) }
{
    put_answer(text, step.node, &step.answer)?;
    put_head(text, &step.head)?;
    put_halt(text, step.node, step.halt)
}

/// Puts all lines of a step, in their order, behind a text. The packets that it sends are numbered from
/// `place.packet` on. Want of memory is the only error; the text may then have a part of the lines.
pub fn put_step(text: &mut Vec<u8>, place: Place, step: &TraceStep) -> Result<(), Oom>
    requires { place.packet + length step.now.sent < 2 ^ 64 }
    ensures { OnOk result (text.new.items ≡ text.old.items ++ step_text place step.now) }
{
    put_step_line(text, place, step)?;
    put_deeds(text, step)?;
    put_packets(text, place.packet, step.sent.as_slice())?;
    put_words(text, step)?;
    Ok(())
}

/// Puts the line of a client that starts a call.
fn put_start_line(
    text: &mut Vec<u8>,
    place: Place,
    client: ClientId,
    call: &Call,
) -> Result<(), Oom>
    ensures { OnOk result (text.new.items ≡ text.old.items ++ line (codes "step " ++ decimal place.step ++ codes " " ++ actor_word (Some (Client client)) ++ codes " " ++ start_text place.call call.now)) }
{
    put_field(text, "step ", place.step)?;
    put_node(text, NodeId::Client(client))?;
    put(text, " ")?;
    put_start(text, place.call, call)?;
    put(text, "\n")
}

/// Puts all lines of a step in which a client starts a call and answers it, without a packet, behind a
/// text: those of the step that has these parts, none of which has to be made for it. Want of memory is the
/// only error; the text may then have a part of the lines.
pub fn put_covered_step(
    text: &mut Vec<u8>,
    place: Place,
    client: ClientId,
    call: &Call,
    reply: &Reply,
    new_ino: Option<Ino>,
) -> Result<(), Oom>
    ensures { OnOk result (text.new.items ≡ text.old.items ++ step_text place (covered_step client place.call call.now reply.now new_ino)) }
{
    put_start_line(text, place, client, call)?;
    put_call_entry(text, client, place.call, reply, new_ino)?;
    put(text, "\n")?;
    put_answer_line(text, client, place.call, reply)?;
    Ok(())
}
