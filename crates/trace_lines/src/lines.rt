ghost use Rattle.std.specs.Prelude.{◌≡◌};
ghost use Rattle.trace_lines.specs.Grammar.{step_in, write_in, call_entry_in, flush_entry_in, purge_entry_in, entry_in, sending_in, packet_in, send_in, answer_in, block_in, head_in, fenced_in, failed_in, stopped_in, damaged_in, reason_in, halt_in, refused_in, settled_in, short_line, line_in, line_of, run_in, end_in};
ghost use Rattle.line_words.specs.Outcome.{Answers};
ghost use Rattle.line_words.specs.Words.{words, words_left};

use crate::events::read_event;
use crate::line::TraceLine;
use crate::names::{cause_of, class_of, settled_of};
use crate::places::{ino_of, number32_of, view_of, window_of};
use crate::sectors::{read_body, sector_of};
use crate::words::{
    first_actor, first_clients, first_ino, first_new, first_node, first_number32, first_view,
    one_word, text_left,
};
use cal_base::View;
use cluster_law::Halt;
use line_words::{
    OutOfForm, ReadWordsError, behind_word, first_client, first_number, last_client, next_word,
    number_of,
};
use session::{Body, Packet};
use std::alloc::Global;
use token_kind::Block;

/// Reads `I ACTOR EVENT`.
fn read_step(alloc: Global, left: Option<&[u8]>) -> Result<TraceLine, ReadWordsError>
    ensures { Answers (step_in (words_left left.entry)) result }
{
    let (index, behind) = first_number(left)?;
    let (actor, behind) = first_actor(behind)?;
    let event = read_event(alloc, behind)?;
    Ok(TraceLine::Step {
        index,
        actor,
        event,
    })
}

/// Reads `S SECTOR`.
fn read_write(alloc: Global, left: Option<&[u8]>) -> Result<TraceLine, ReadWordsError>
    ensures { Answers (write_in (words_left left.entry)) result }
{
    let (number, behind) = first_number32(left)?;
    let word = one_word(behind)?;
    let sector = sector_of(alloc, word)?;
    Ok(TraceLine::Write((number, sector)))
}

/// Reads `cX N new I reply R`.
fn read_call_entry(alloc: Global, left: Option<&[u8]>) -> Result<TraceLine, ReadWordsError>
    ensures { Answers (call_entry_in (words_left left.entry)) result }
{
    let (client, behind) = first_client(left)?;
    let (number, behind) = first_number(behind)?;
    let behind = behind_word(b"new", behind)?;
    let (new_ino, behind) = first_new(behind)?;
    let behind = behind_word(b"reply", behind)?;
    let reply = text_left(alloc, behind)?;
    Ok(TraceLine::CallEntry {
        client,
        number,
        new_ino,
        reply,
    })
}

/// Reads `cX I`.
fn read_flush_entry(left: Option<&[u8]>) -> Result<TraceLine, ReadWordsError>
    ensures { Answers (flush_entry_in (words_left left.entry)) result }
{
    let (client, behind) = first_client(left)?;
    let word = one_word(behind)?;
    let ino = ino_of(word)?;
    Ok(TraceLine::FlushEntry { client, ino })
}

/// Reads `cX`.
fn read_purge_entry(left: Option<&[u8]>) -> Result<TraceLine, ReadWordsError>
    ensures { Answers (purge_entry_in (words_left left.entry)) result }
{
    let client = last_client(left)?;
    Ok(TraceLine::PurgeEntry { client })
}

/// Reads an entry of a call, a flush or a purge.
fn read_entry(alloc: Global, left: Option<&[u8]>) -> Result<TraceLine, ReadWordsError>
    ensures { Answers (entry_in (words_left left.entry)) result }
{
    let Some((kind, behind)) = next_word(left) else {
        return Err(ReadWordsError::Form);
    };
    if kind == b"call".as_slice() {
        read_call_entry(alloc, behind)
    } else if kind == b"flush".as_slice() {
        read_flush_entry(behind)
    } else if kind == b"purge".as_slice() {
        read_purge_entry(behind)
    } else {
        Err(ReadWordsError::Form)
    }
}

/// What a packet has behind its nodes.
struct Sending {
    view: View,
    seq: u64,
    ack: u64,
    body: Body,
}

/// Reads `V SEQ ACK NAME BODY`.
fn read_sending(alloc: Global, left: Option<&[u8]>) -> Result<Sending, ReadWordsError>
    ensures { Answers (sending_in (words_left left.entry)) result }
{
    let (view, behind) = first_view(left)?;
    let (seq, behind) = first_number(behind)?;
    let (ack, behind) = first_number(behind)?;
    let body = read_body(alloc, behind)?;
    Ok(Sending {
        view,
        seq,
        ack,
        body,
    })
}

/// Reads `FROM TO` and what stands behind.
fn read_packet(alloc: Global, left: Option<&[u8]>) -> Result<Packet, ReadWordsError>
    ensures { Answers (packet_in (words_left left.entry)) result }
{
    let (from, behind) = first_node(left)?;
    let (to, behind) = first_node(behind)?;
    let Sending {
        view,
        seq,
        ack,
        body,
    } = read_sending(alloc, behind)?;
    Ok(Packet {
        from,
        to,
        view,
        seq,
        ack,
        body,
    })
}

/// Reads `N PACKET`.
fn read_send(alloc: Global, left: Option<&[u8]>) -> Result<TraceLine, ReadWordsError>
    ensures { Answers (send_in (words_left left.entry)) result }
{
    let (number, behind) = first_number(left)?;
    let packet = read_packet(alloc, behind)?;
    Ok(TraceLine::Send { number, packet })
}

/// Reads `cX N R`.
fn read_answer(alloc: Global, left: Option<&[u8]>) -> Result<TraceLine, ReadWordsError>
    ensures { Answers (answer_in (words_left left.entry)) result }
{
    let (client, behind) = first_client(left)?;
    let (number, behind) = first_number(behind)?;
    let reply = text_left(alloc, behind)?;
    Ok(TraceLine::Answer {
        client,
        number,
        reply,
    })
}

/// Reads `cX N blocked cY I CLASS`.
fn read_block(left: Option<&[u8]>) -> Result<Block, ReadWordsError>
    ensures { Answers (block_in (words_left left.entry)) result }
{
    let (client, behind) = first_client(left)?;
    let (number, behind) = first_number(behind)?;
    let behind = behind_word(b"blocked", behind)?;
    let (holder, behind) = first_client(behind)?;
    let (ino, behind) = first_ino(behind)?;
    let word = one_word(behind)?;
    let class = class_of(word)?;
    Ok(Block {
        client,
        number,
        holder,
        ino,
        class,
    })
}

/// Reads the head of a server's line.
fn read_head(left: Option<&[u8]>) -> Result<TraceLine, ReadWordsError>
    ensures { Answers (head_in (words_left left.entry)) result }
{
    let block = read_block(left)?;
    Ok(TraceLine::Head(block))
}

/// Reads `V V`.
fn read_fenced(left: Option<&[u8]>) -> Result<Halt, ReadWordsError>
    ensures { Answers (fenced_in (words_left left.entry)) result }
{
    let (mine, behind) = first_view(left)?;
    let word = one_word(behind)?;
    let current = view_of(word)?;
    Ok(Halt::Fenced { mine, current })
}

/// Reads `N`.
fn read_failed(left: Option<&[u8]>) -> Result<Halt, ReadWordsError>
    ensures { Answers (failed_in (words_left left.entry)) result }
{
    let word = one_word(left)?;
    let faults = number_of(word)?;
    Ok(Halt::Failed { faults })
}

/// Reads the end of a line.
fn read_stopped(left: Option<&[u8]>) -> Result<Halt, ReadWordsError>
    ensures { Answers (stopped_in (words_left left.entry)) result }
{
    match next_word(left) {
        None => Ok(Halt::Stopped),
        Some(_) => Err(ReadWordsError::Form),
    }
}

/// Reads `S`.
fn read_damaged(left: Option<&[u8]>) -> Result<Halt, ReadWordsError>
    ensures { Answers (damaged_in (words_left left.entry)) result }
{
    let word = one_word(left)?;
    let sector = number32_of(word)?;
    Ok(Halt::Damaged { sector })
}

/// Reads why a node halts.
fn read_reason(left: Option<&[u8]>) -> Result<Halt, ReadWordsError>
    ensures { Answers (reason_in (words_left left.entry)) result }
{
    let Some((word, behind)) = next_word(left) else {
        return Err(ReadWordsError::Form);
    };
    if word == b"fenced".as_slice() {
        read_fenced(behind)
    } else if word == b"failed".as_slice() {
        read_failed(behind)
    } else if word == b"stopped".as_slice() {
        read_stopped(behind)
    } else if word == b"damaged".as_slice() {
        read_damaged(behind)
    } else {
        Err(ReadWordsError::Form)
    }
}

/// Reads `ACTOR REASON`.
fn read_halt(left: Option<&[u8]>) -> Result<TraceLine, ReadWordsError>
    ensures { Answers (halt_in (words_left left.entry)) result }
{
    let (actor, behind) = first_actor(left)?;
    let halt = read_reason(behind)?;
    Ok(TraceLine::Halt { actor, halt })
}

/// Reads `L CAUSE`.
fn read_refused(left: Option<&[u8]>) -> Result<TraceLine, ReadWordsError>
    ensures { Answers (refused_in (words_left left.entry)) result }
{
    let (line, behind) = first_number32(left)?;
    let word = one_word(behind)?;
    let cause = cause_of(word)?;
    Ok(TraceLine::Refused { line, cause })
}

/// Reads `L N HOW`.
fn read_settled(left: Option<&[u8]>) -> Result<TraceLine, ReadWordsError>
    ensures { Answers (settled_in (words_left left.entry)) result }
{
    let (line, behind) = first_number32(left)?;
    let (cycles, behind) = first_number(behind)?;
    let word = one_word(behind)?;
    let how = settled_of(word)?;
    Ok(TraceLine::Settled { line, cycles, how })
}

/// Reads a head, a halt, or a line between steps.
fn read_short_line(word: &[u8], behind: Option<&[u8]>) -> Result<TraceLine, ReadWordsError>
    ensures { Answers (short_line word.now (words_left behind.entry)) result }
{
    if word == b"head".as_slice() {
        read_head(behind)
    } else if word == b"halt".as_slice() {
        read_halt(behind)
    } else if word == b"refused".as_slice() {
        read_refused(behind)
    } else if word == b"settled".as_slice() {
        read_settled(behind)
    } else {
        Err(ReadWordsError::Form)
    }
}

/// Reads a line, by its first word.
#[tactic(auto, unfolding(crate::specs::Grammar::line_of))]
pub(crate) fn read_line(alloc: Global, text: &[u8]) -> Result<TraceLine, ReadWordsError>
    ensures { Answers (line_of text.now) result }
{
    let Some((word, behind)) = next_word(Some(text)) else {
        return Err(ReadWordsError::Form);
    };
    if word == b"step".as_slice() {
        read_step(alloc, behind)
    } else if word == b"write".as_slice() {
        read_write(alloc, behind)
    } else if word == b"entry".as_slice() {
        read_entry(alloc, behind)
    } else if word == b"send".as_slice() {
        read_send(alloc, behind)
    } else if word == b"ans".as_slice() {
        read_answer(alloc, behind)
    } else {
        read_short_line(word, behind)
    }
}

/// Reads `run clients N window K`.
pub(crate) fn read_run(left: Option<&[u8]>) -> Result<(u8, u8), OutOfForm>
    ensures { result ≡ run_in (words_left left.entry) }
{
    let behind = behind_word(b"run", left)?;
    let behind = behind_word(b"clients", behind)?;
    let (clients, behind) = first_clients(behind)?;
    let behind = behind_word(b"window", behind)?;
    let word = one_word(behind)?;
    let window = window_of(word)?;
    Ok((clients, window))
}

/// Reads `end N`.
pub(crate) fn read_end(left: Option<&[u8]>) -> Result<u64, OutOfForm>
    ensures { result ≡ end_in (words_left left.entry) }
{
    let behind = behind_word(b"end", left)?;
    let word = one_word(behind)?;
    number_of(word)
}
