ghost use Rattle.std.specs.Prelude.{◌≡◌, ◌≤◌, ℕ, List, IfOk, Ok, Err};
ghost use Rattle.cal_base.specs.Limits as limits;
ghost use Rattle.script.specs.Places.{client_in};
ghost use Rattle.script.specs.declared.bad_line.BadWhy.{BadWhy};
ghost use Rattle.script.specs.declared.command.HowName.TheVariants.{Cleanly, Filled, Spelled};
ghost use Rattle.script.specs.CommandLine.{first_commands_or, other_command, command_in, packet_line, pair_line, node_line, packet_said, second_node_said, pair_said, node_said, gone_said, view_said, write_back_said, how_name, writes_in, how_said, stop_behind, stop_said, settle_said, window_said, does, command_with, client_call, command_said, call_or_command, words_said, clients_of, first_said};
ghost use Rattle.script.specs.Outcome.{Answers};
ghost use Rattle.script.specs.Words.{words};

use crate::bad_line::BadWhy;
use crate::call_line::{descriptor_in, read_call};
use crate::command::{Command, HowName, NodeCommand, PacketCommand, PairCommand};
use crate::numbers::{byte_of, hex_in, number_in};
use crate::places::{client_in, node_in, server_in};
use crate::read_error::ReadLineError;
use crate::script::{How, Line, Said};
use crate::words::{next_word, none_of, one_of};
use cal_base::{BLOCK_SIZE, CLIENTS, ClientId, NodeId, ServerId, WINDOW};
use std::alloc::Global;

fn first_commands_or(word: &[u8], other: Result<Command, BadWhy>) -> Result<Command, BadWhy>
    ensures { result ≡ first_commands_or word.now other }
{
    if word == b"deliver".as_slice() {
        Ok(Command::OnPacket(PacketCommand::Delivers))
    } else if word == b"drop".as_slice() {
        Ok(Command::OnPacket(PacketCommand::Drops))
    } else if word == b"pass".as_slice() {
        Ok(Command::OnPair(PairCommand::Passes))
    } else if word == b"cut".as_slice() {
        Ok(Command::OnPair(PairCommand::Cuts))
    } else if word == b"mend".as_slice() {
        Ok(Command::OnPair(PairCommand::Mends))
    } else if word == b"tick".as_slice() {
        Ok(Command::OnNode(NodeCommand::Ticks))
    } else if word == b"crash".as_slice() {
        Ok(Command::OnNode(NodeCommand::Crashes))
    } else {
        other
    }
}

fn other_command(number: u32, word: &[u8]) -> Result<Command, BadWhy>
    ensures { result ≡ other_command number word.now }
{
    if word == b"gone".as_slice() {
        Ok(Command::Declares)
    } else if word == b"view".as_slice() {
        Ok(Command::Moves)
    } else if word == b"writeback".as_slice() {
        Ok(Command::WritesBack)
    } else if word == b"stop".as_slice() {
        Ok(Command::Stops)
    } else if word == b"settle".as_slice() {
        Ok(Command::Settles)
    } else if word == b"window".as_slice() {
        if number == 2 {
            Ok(Command::Windows)
        } else {
            Err(BadWhy::Word)
        }
    } else {
        Err(BadWhy::Word)
    }
}

/// The command that a word names in the line of this number.
fn command_in(number: u32, word: &[u8]) -> Result<Command, BadWhy>
    ensures { result ≡ command_in number word.now }
{
    first_commands_or(word, other_command(number, word))
}

fn packet_line(command: PacketCommand, packet: u64) -> Line
    ensures { result ≡ packet_line command packet }
{
    match command {
        PacketCommand::Delivers => Line::Deliver(packet),
        PacketCommand::Drops => Line::Drop(packet),
    }
}

fn pair_line(command: PairCommand, from: NodeId, to: NodeId) -> Line
    ensures { result ≡ pair_line command from to }
{
    match command {
        PairCommand::Passes => Line::Pass(from, to),
        PairCommand::Cuts => Line::Cut(from, to),
        PairCommand::Mends => Line::Mend(from, to),
    }
}

fn node_line(command: NodeCommand, node: NodeId) -> Line
    ensures { result ≡ node_line command node }
{
    match command {
        NodeCommand::Ticks => Line::Tick(node),
        NodeCommand::Crashes => Line::Crash(node),
    }
}

fn read_packet(command: PacketCommand, args: &[u8]) -> Result<Line, BadWhy>
    ensures { result ≡ packet_said command (words args.now) }
{
    let word = one_of(args)?;
    let packet = number_in(0, u64::MAX, word)?;
    Ok(packet_line(command, packet))
}

fn read_second_node(command: PairCommand, from: NodeId, args: &[u8]) -> Result<Line, BadWhy>
    ensures { result ≡ second_node_said command from (words args.now) }
{
    let Some((word, args)) = next_word(args) else {
        return Err(BadWhy::Count);
    };
    let to = node_in(word)?;
    none_of(args)?;
    Ok(pair_line(command, from, to))
}

fn read_pair(command: PairCommand, args: &[u8]) -> Result<Line, BadWhy>
    ensures { result ≡ pair_said command (words args.now) }
{
    let Some((word, args)) = next_word(args) else {
        return Err(BadWhy::Count);
    };
    let from = node_in(word)?;
    read_second_node(command, from, args)
}

fn read_node(command: NodeCommand, args: &[u8]) -> Result<Line, BadWhy>
    ensures { result ≡ node_said command (words args.now) }
{
    let Some((word, args)) = next_word(args) else {
        return Err(BadWhy::Count);
    };
    let node = node_in(word)?;
    none_of(args)?;
    Ok(node_line(command, node))
}

fn read_gone(args: &[u8]) -> Result<Line, BadWhy>
    ensures { result ≡ gone_said (words args.now) }
{
    let Some((word, args)) = next_word(args) else {
        return Err(BadWhy::Count);
    };
    let client = client_in(word)?;
    none_of(args)?;
    Ok(Line::Gone(client))
}

fn read_view(args: &[u8]) -> Result<Line, BadWhy>
    ensures { result ≡ view_said (words args.now) }
{
    let Some((word, args)) = next_word(args) else {
        return Err(BadWhy::Count);
    };
    let server = server_in(word)?;
    none_of(args)?;
    Ok(Line::View(server))
}

fn read_write_back(args: &[u8]) -> Result<Line, BadWhy>
    ensures { result ≡ write_back_said (words args.now) }
{
    let Some((word, args)) = next_word(args) else {
        return Err(BadWhy::Count);
    };
    let client = client_in(word)?;
    let file = one_of(args)?;
    let fd = descriptor_in(file)?;
    Ok(Line::WriteBack(client, fd))
}

fn how_name(word: &[u8]) -> Result<HowName, BadWhy>
    ensures { result ≡ how_name word.now }
{
    if word == b"clean".as_slice() {
        Ok(HowName::Cleanly)
    } else if word == b"fill".as_slice() {
        Ok(HowName::Filled)
    } else if word == b"hex".as_slice() {
        Ok(HowName::Spelled)
    } else {
        Err(BadWhy::Word)
    }
}

/// A count of writes.
fn writes_in(word: &[u8]) -> Result<u32, BadWhy>
    ensures { result ≡ writes_in word.now }
{
    match number_in(0, u64::from(u32::MAX), word) {
        Ok(writes) => Ok(writes as u32),
        Err(why) => Err(why),
    }
}

fn read_clean(server: ServerId, writes: &[u8], args: &[u8]) -> Result<Line, ReadLineError>
    ensures { Answers (how_said server writes.now Cleanly (words args.now)) result }
{
    none_of(args)?;
    let after = writes_in(writes)?;
    let how = How::Clean;
    Ok(Line::Stop { server, after, how })
}

fn read_filled(server: ServerId, writes: &[u8], args: &[u8]) -> Result<Line, ReadLineError>
    ensures { Answers (how_said server writes.now Filled (words args.now)) result }
{
    let word = one_of(args)?;
    let after = writes_in(writes)?;
    let how = How::Fill(byte_of(word)?);
    Ok(Line::Stop { server, after, how })
}

fn read_spelled(
    alloc: Global,
    server: ServerId,
    writes: &[u8],
    args: &[u8],
) -> Result<Line, ReadLineError>
    ensures { Answers (how_said server writes.now Spelled (words args.now)) result }
{
    let word = one_of(args)?;
    let after = writes_in(writes)?;
    let how = How::Hex(hex_in(alloc, BLOCK_SIZE, word)?);
    Ok(Line::Stop { server, after, how })
}

/// The places of `stop S K HOW` behind the name of HOW.
fn read_how(
    alloc: Global,
    server: ServerId,
    writes: &[u8],
    name: HowName,
    args: &[u8],
) -> Result<Line, ReadLineError>
    ensures { Answers (how_said server writes.now name (words args.now)) result }
{
    match name {
        HowName::Cleanly => read_clean(server, writes, args),
        HowName::Filled => read_filled(server, writes, args),
        HowName::Spelled => read_spelled(alloc, server, writes, args),
    }
}

/// The places of `stop S K HOW` behind the server.
fn read_stop_behind(alloc: Global, server: ServerId, args: &[u8]) -> Result<Line, ReadLineError>
    ensures { Answers (stop_behind server (words args.now)) result }
{
    let Some((writes, args)) = next_word(args) else {
        return Err(ReadLineError::Bad(BadWhy::Count));
    };
    let Some((how, args)) = next_word(args) else {
        return Err(ReadLineError::Bad(BadWhy::Count));
    };
    let name = how_name(how)?;
    read_how(alloc, server, writes, name, args)
}

fn read_stop(alloc: Global, args: &[u8]) -> Result<Line, ReadLineError>
    ensures { Answers (stop_said (words args.now)) result }
{
    let Some((word, args)) = next_word(args) else {
        return Err(ReadLineError::Bad(BadWhy::Count));
    };
    let server = server_in(word)?;
    read_stop_behind(alloc, server, args)
}

fn read_settle(args: &[u8]) -> Result<Line, BadWhy>
    ensures { result ≡ settle_said (words args.now) }
{
    none_of(args)?;
    Ok(Line::Settle)
}

fn read_window(args: &[u8]) -> Result<Said, BadWhy>
    ensures { result ≡ window_said (words args.now) }
{
    let word = one_of(args)?;
    match number_in(1, u64::from(WINDOW), word) {
        Ok(window) => Ok(Said::Window(window as u8)),
        Err(why) => Err(why),
    }
}

fn does(said: Result<Line, BadWhy>) -> Result<Said, ReadLineError>
    ensures { Answers (does said) result }
{
    match said {
        Ok(line) => Ok(Said::Line(line)),
        Err(why) => Err(ReadLineError::Bad(why)),
    }
}

fn does_stop(alloc: Global, args: &[u8]) -> Result<Said, ReadLineError>
    ensures { Answers (does (stop_said (words args.now))) result }
{
    let line = read_stop(alloc, args)?;
    Ok(Said::Line(line))
}

fn says_window(args: &[u8]) -> Result<Said, ReadLineError>
    ensures { Answers (window_said (words args.now)) result }
{
    Ok(read_window(args)?)
}

/// The command of this name with these words.
fn read_command_with(alloc: Global, command: Command, args: &[u8]) -> Result<Said, ReadLineError>
    ensures { Answers (command_with command (words args.now)) result }
{
    match command {
        Command::OnPacket(command) => does(read_packet(command, args)),
        Command::OnPair(command) => does(read_pair(command, args)),
        Command::OnNode(command) => does(read_node(command, args)),
        Command::Declares => does(read_gone(args)),
        Command::Moves => does(read_view(args)),
        Command::WritesBack => does(read_write_back(args)),
        Command::Stops => does_stop(alloc, args),
        Command::Settles => does(read_settle(args)),
        Command::Windows => says_window(args),
    }
}

fn read_call_of(alloc: Global, client: ClientId, args: &[u8]) -> Result<Said, ReadLineError>
    ensures { Answers (client_call client (words args.now)) result }
{
    let call = read_call(alloc, args)?;
    Ok(Said::Line(Line::Call(client, call)))
}

fn read_command(alloc: Global, number: u32, word: &[u8], args: &[u8]) -> Result<Said, ReadLineError>
    ensures { Answers (command_said number word.now (words args.now)) result }
{
    let command = command_in(number, word)?;
    read_command_with(alloc, command, args)
}

/// A client's call, or else a command.
fn read_call_or_command(
    alloc: Global,
    number: u32,
    word: &[u8],
    args: &[u8],
) -> Result<Said, ReadLineError>
    ensures { Answers (call_or_command number (client_in word.now) word.now (words args.now)) result }
{
    match client_in(word) {
        Ok(client) => read_call_of(alloc, client, args),
        Err(_) => read_command(alloc, number, word, args),
    }
}

/// What the words of a line behind the first say.
pub(crate) fn read_words(alloc: Global, number: u32, text: &[u8]) -> Result<Said, ReadLineError>
    ensures { Answers (words_said number (words text.now)) result }
{
    match next_word(text) {
        None => Ok(Said::Nothing),
        Some((word, args)) => read_call_or_command(alloc, number, word, args),
    }
}

fn clients_of(count: Result<u64, BadWhy>) -> Result<Said, BadWhy>
    requires { IfOk count (λ clients. clients ≤ limits.clients) }
    ensures { result ≡ clients_of count }
{
    match count {
        Ok(count) => Ok(Said::Clients(count as u8)),
        Err(_) => Err(BadWhy::First),
    }
}

/// What the words of the first line say.
pub(crate) fn read_first(text: &[u8]) -> Result<Said, BadWhy>
    ensures { result ≡ first_said (words text.now) }
{
    let Some((word, rest)) = next_word(text) else {
        return Err(BadWhy::First);
    };
    let Some((count, rest)) = next_word(rest) else {
        return Err(BadWhy::First);
    };
    if next_word(rest).is_some() {
        return Err(BadWhy::First);
    }
    if word == b"clients".as_slice() {
        clients_of(number_in(1, u64::from(CLIENTS), count))
    } else {
        Err(BadWhy::First)
    }
}
