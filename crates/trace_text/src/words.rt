ghost use Rattle.std.specs.Prelude.{◌≡◌, ◌++◌, codes, OnOk};
ghost use Rattle.std.specs.Fmt.{decimal};
ghost use Rattle.script.specs.Spelling.{node_word};
ghost use Rattle.trace_text.specs.Line.{actor_word, hex_or_dash};

use cal_base::{NodeId, Oom, ServerId};
use reply_text::{put, put_field, put_hex};

/// Puts bytes in hexadecimal, or a dash where there are none.
pub(crate) fn put_hex_or_dash(text: &mut Vec<u8>, bytes: &[u8]) -> Result<(), Oom>
    ensures { OnOk result (text.new.items ≡ text.old.items ++ hex_or_dash bytes.now) }
{
    if bytes.is_empty() {
        return put(text, "-");
    }
    put_hex(text, bytes)
}

/// Puts a node behind a space.
pub(crate) fn put_node(text: &mut Vec<u8>, node: NodeId) -> Result<(), Oom>
    ensures { OnOk result (text.new.items ≡ text.old.items ++ codes " " ++ node_word node) }
{
    match node {
        NodeId::Client(client) => put_field(text, " c", u64::from(client.0)),
        NodeId::Server(ServerId::A) => put(text, " A"),
        NodeId::Server(ServerId::B) => put(text, " B"),
    }
}

/// Puts whose step it is, behind a space.
pub(crate) fn put_actor(text: &mut Vec<u8>, actor: Option<NodeId>) -> Result<(), Oom>
    ensures { OnOk result (text.new.items ≡ text.old.items ++ codes " " ++ actor_word actor) }
{
    match actor {
        Some(node) => put_node(text, node),
        None => put(text, " members"),
    }
}
