ghost use Rattle.std.specs.Prelude.{◌≡◌, ◌++◌, codes, OnOk};
ghost use Rattle.std.specs.Fmt.{decimal};
ghost use Rattle.trace_text.specs.Line.{line};
ghost use Rattle.trace_text.specs.Entries.{answer_line, answer_text, answer_to, call_entry_line, entries_text, entry_front, entry_line, new_text};

use cal_base::{ClientId, Ino, NodeId, Oom};
use cluster_law::Answer;
use reply_text::{put, put_field, put_number, put_reply};
use tree_law::{Entry, Reply};

/// Puts the inode that a call made, or a dash.
fn put_new_inode(text: &mut Vec<u8>, new_ino: Option<Ino>) -> Result<(), Oom>
    ensures { OnOk result (text.new.items ≡ text.old.items ++ new_text new_ino) }
{
    match new_ino {
        Some(ino) => put_number(text, u64::from(ino.0)),
        None => put(text, "-"),
    }
}

/// Puts the front of the line of the entry of a call: the call and the inode that it made.
fn put_entry_front(
    text: &mut Vec<u8>,
    client: ClientId,
    number: u64,
    new_ino: Option<Ino>,
) -> Result<(), Oom>
    ensures { OnOk result (text.new.items ≡ text.old.items ++ entry_front client number new_ino) }
{
    put_field(text, "entry call c", u64::from(client.0))?;
    put_field(text, " ", number)?;
    put(text, " new ")?;
    put_new_inode(text, new_ino)?;
    Ok(())
}

/// Puts the entry of a call.
pub(crate) fn put_call_entry(
    text: &mut Vec<u8>,
    client: ClientId,
    number: u64,
    reply: &Reply,
    new_ino: Option<Ino>,
) -> Result<(), Oom>
    ensures { OnOk result (text.new.items ≡ text.old.items ++ call_entry_line client number reply.now new_ino) }
{
    put_entry_front(text, client, number, new_ino)?;
    put(text, " reply ")?;
    put_reply(text, reply)
}

/// Puts the entry of a flush.
fn put_flush_entry(text: &mut Vec<u8>, client: ClientId, ino: Ino) -> Result<(), Oom>
    ensures { OnOk result (text.new.items ≡ text.old.items ++ codes "entry flush c" ++ decimal client.0 ++ codes " " ++ decimal ino.0) }
{
    put_field(text, "entry flush c", u64::from(client.0))?;
    put_field(text, " ", u64::from(ino.0))
}

/// Puts an entry.
fn put_entry(text: &mut Vec<u8>, entry: &Entry) -> Result<(), Oom>
    ensures { OnOk result (text.new.items ≡ text.old.items ++ entry_line entry.now) }
{
    match entry {
        Entry::Call {
            client,
            number,
            call: _,
            reply,
            new_ino,
        } => put_call_entry(text, *client, *number, reply, *new_ino),
        Entry::Flush { client, ino } => put_flush_entry(text, *client, *ino),
        Entry::Purge { client } => put_field(text, "entry purge c", u64::from(client.0)),
    }
}

/// Puts the line of an entry.
fn put_entry_line(text: &mut Vec<u8>, entry: &Entry) -> Result<(), Oom>
    ensures { OnOk result (text.new.items ≡ text.old.items ++ line (entry_line entry.now)) }
{
    put_entry(text, entry)?;
    put(text, "\n")
}

/// Puts a line for each entry, in order.
pub(crate) fn put_entries(text: &mut Vec<u8>, entries: &[Entry]) -> Result<(), Oom>
    ensures { OnOk result (text.new.items ≡ text.old.items ++ entries_text entries.now) }
{
    for entry in entries {
        put_entry_line(text, entry)?;
    }
    Ok(())
}

/// Puts the line of an answer to a client's call.
pub(crate) fn put_answer_line(
    text: &mut Vec<u8>,
    client: ClientId,
    number: u64,
    reply: &Reply,
) -> Result<(), Oom>
    ensures { OnOk result (text.new.items ≡ text.old.items ++ line (answer_line client number reply.now)) }
{
    put_field(text, "ans c", u64::from(client.0))?;
    put_field(text, " ", number)?;
    put(text, " ")?;
    put_reply(text, reply)?;
    put(text, "\n")
}

/// Puts the line of a client's answer, if there is one.
fn put_answer_to(text: &mut Vec<u8>, client: ClientId, answer: &Option<Answer>) -> Result<(), Oom>
    ensures { OnOk result (text.new.items ≡ text.old.items ++ answer_to client answer.now) }
{
    match answer {
        None => Ok(()),
        Some(answer) => put_answer_line(text, client, answer.number, &answer.reply),
    }
}

/// Puts the line of a client's answer, where its step has one.
pub(crate) fn put_answer(
    text: &mut Vec<u8>,
    node: Option<NodeId>,
    answer: &Option<Answer>,
) -> Result<(), Oom>
    ensures { OnOk result (text.new.items ≡ text.old.items ++ answer_text node answer.now) }
{
    match node {
        Some(NodeId::Client(client)) => put_answer_to(text, client, answer),
        Some(NodeId::Server(_)) => Ok(()),
        None => Ok(()),
    }
}
