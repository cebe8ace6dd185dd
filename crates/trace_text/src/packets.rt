ghost use Rattle.std.specs.Prelude.{◌≡◌, ◌+◌, ◌<◌, ◌^◌, ◌++◌, codes, length, OnOk};
ghost use Rattle.std.specs.Fmt.{decimal};
ghost use Rattle.trace_text.specs.Line.{line};
ghost use Rattle.trace_text.specs.Packets.{body_name, body_text, kind_name, packet_counts, packet_line, packet_route, packets_text};

use crate::words::{put_hex_or_dash, put_node};
use cal_base::Oom;
use reply_text::{put, put_field};
use session::Packet;

/// The name of the message that begins with this byte.
fn kind_name(kind: u8) -> &'static str
    ensures { result.now ≡ kind_name kind }
{
    match kind {
        1 => "Acquire",
        2 => "Grant",
        3 => "Refuse",
        4 => "Change",
        5 => "Done",
        6 => "Flush",
        7 => "Flushed",
        8 => "Revoke",
        9 => "Release",
        10 => "Ask",
        11 => "Piece",
        12 => "Wait",
        13 => "Admit",
        _ => "-",
    }
}

/// The name of what a packet carries.
fn body_name(body: &[u8]) -> &'static str
    ensures { result.now ≡ body_name body.now }
{
    match body {
        [] => "Ack",
        [kind, ..] => kind_name(*kind),
    }
}

/// Puts a packet's number, who sent it and for whom it is.
fn put_route(text: &mut Vec<u8>, number: u64, packet: &Packet) -> Result<(), Oom>
    ensures { OnOk result (text.new.items ≡ text.old.items ++ packet_route number packet.now) }
{
    put_field(text, "send ", number)?;
    put_node(text, packet.from)?;
    put_node(text, packet.to)
}

/// Puts a packet's view, the number of its message, and how many messages its sender has taken.
fn put_counts(text: &mut Vec<u8>, packet: &Packet) -> Result<(), Oom>
    ensures { OnOk result (text.new.items ≡ text.old.items ++ packet_counts packet.now) }
{
    put_field(text, " ", packet.view.0)?;
    put_field(text, " ", packet.seq)?;
    put_field(text, " ", packet.ack)
}

/// Puts the message of a packet, by name and byte for byte.
fn put_body(text: &mut Vec<u8>, body: &[u8]) -> Result<(), Oom>
    ensures { OnOk result (text.new.items ≡ text.old.items ++ body_text body.now) }
{
    put(text, " ")?;
    put(text, body_name(body))?;
    put(text, " ")?;
    put_hex_or_dash(text, body)
}

/// Puts the line of a packet.
fn put_packet(text: &mut Vec<u8>, number: u64, packet: &Packet) -> Result<(), Oom>
    ensures { OnOk result (text.new.items ≡ text.old.items ++ line (packet_line number packet.now)) }
{
    put_route(text, number, packet)?;
    put_counts(text, packet)?;
    put_body(text, packet.body.as_slice())?;
    put(text, "\n")
}

/// Puts a line for each packet, in order, where the first one has this number.
pub(crate) fn put_packets(text: &mut Vec<u8>, first: u64, packets: &[Packet]) -> Result<(), Oom>
    requires { first + length packets.now < 2 ^ 64 }
    ensures { OnOk result (text.new.items ≡ text.old.items ++ packets_text first packets.now) }
{
    let mut number = first;
    for packet in packets {
        put_packet(text, number, packet)?;
        number += 1;
    }
    Ok(())
}
