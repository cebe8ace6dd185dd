ghost use Rattle.std.specs.Prelude.{◌≡◌, ◌++◌, codes, OnOk};
ghost use Rattle.std.specs.Fmt.{decimal};
ghost use Rattle.trace_text.specs.Line.{line, actor_word};
ghost use Rattle.trace_text.specs.Serving.{blocker_text, class_word, halt_line, halt_text, head_line, head_text, reason_text, request_text};

use crate::words::put_actor;
use cal_base::{NodeId, Oom};
use cluster_law::Halt;
use reply_text::{put, put_field};
use token_kind::{Block, Class};

/// The word of a class.
fn class_word(class: Class) -> &'static str
    ensures { result.now ≡ class_word «class» }
{
    match class {
        Class::Names => "Names",
        Class::Data => "Data",
        Class::Attr => "Attr",
        Class::Open => "Open",
    }
}

/// Puts the request at the head of a server's line.
fn put_request(text: &mut Vec<u8>, block: &Block) -> Result<(), Oom>
    ensures { OnOk result (text.new.items ≡ text.old.items ++ request_text block.now) }
{
    put_field(text, "head c", u64::from(block.client.0))?;
    put_field(text, " ", block.number)
}

/// Puts the first hold that blocks it.
fn put_blocker(text: &mut Vec<u8>, block: &Block) -> Result<(), Oom>
    ensures { OnOk result (text.new.items ≡ text.old.items ++ blocker_text block.now) }
{
    put_field(text, " blocked c", u64::from(block.holder.0))?;
    put_field(text, " ", u64::from(block.ino.0))?;
    put(text, " ")?;
    put(text, class_word(block.class))
}

/// Puts the line of a blocked head.
fn put_head_line(text: &mut Vec<u8>, block: &Block) -> Result<(), Oom>
    ensures { OnOk result (text.new.items ≡ text.old.items ++ line (head_line block.now)) }
{
    put_request(text, block)?;
    put_blocker(text, block)?;
    put(text, "\n")
}

/// Puts the line of the head, where it is blocked.
pub(crate) fn put_head(text: &mut Vec<u8>, head: &Option<Block>) -> Result<(), Oom>
    ensures { OnOk result (text.new.items ≡ text.old.items ++ head_text head.now) }
{
    match head {
        None => Ok(()),
        Some(block) => put_head_line(text, block),
    }
}

/// Puts why a server halts.
fn put_reason(text: &mut Vec<u8>, halt: Halt) -> Result<(), Oom>
    ensures { OnOk result (text.new.items ≡ text.old.items ++ reason_text halt) }
{
    match halt {
        Halt::Fenced { mine, current } => {
            put_field(text, "fenced ", mine.0)?;
            put_field(text, " ", current.0)
        }
        Halt::Failed { faults } => put_field(text, "failed ", faults),
        Halt::Stopped => put(text, "stopped"),
        Halt::Damaged { sector } => put_field(text, "damaged ", u64::from(sector)),
    }
}

/// Puts the line of a halt.
fn put_halt_line(text: &mut Vec<u8>, node: Option<NodeId>, halt: Halt) -> Result<(), Oom>
    ensures { OnOk result (text.new.items ≡ text.old.items ++ line (halt_line node halt)) }
{
    put(text, "halt")?;
    put_actor(text, node)?;
    put(text, " ")?;
    put_reason(text, halt)?;
    put(text, "\n")
}

/// Puts the line of the halt, where the step has one.
pub(crate) fn put_halt(
    text: &mut Vec<u8>,
    node: Option<NodeId>,
    halt: Option<Halt>,
) -> Result<(), Oom>
    ensures { OnOk result (text.new.items ≡ text.old.items ++ halt_text node halt) }
{
    match halt {
        None => Ok(()),
        Some(halt) => put_halt_line(text, node, halt),
    }
}
