ghost use Rattle.std.specs.Prelude.{◌≡◌, ◌≤◌, ◌-◌, IfOk};
ghost use Rattle.cal_base.specs.Limits as limits;
ghost use Rattle.script.specs.Outcome.{Answers};
ghost use Rattle.script.specs.Places.{path_in, client_of, client_in, server_in, server_node, node_or, node_in, mode_in};

use crate::bad_line::BadWhy;
use crate::numbers::number_in;
use crate::read_error::ReadLineError;
use cal_base::{CLIENTS, ClientId, NodeId, ServerId};
use std::alloc::Global;
use tree_law::{Mode, Path, ReadPathError, read_path};

/// A path: `/`, or 1 to 16 names, each after a `/`.
pub(crate) fn path_in(alloc: Global, word: &[u8]) -> Result<Path, ReadLineError>
    ensures { Answers (path_in word.now) result }
{
    match read_path(alloc, word) {
        Ok(path) => Ok(path),
        Err(ReadPathError::BadPath) => Err(ReadLineError::Bad(BadWhy::Path)),
        Err(ReadPathError::OutOfMemory) => Err(ReadLineError::OutOfMemory),
    }
}

fn client_of(number: Result<u64, BadWhy>) -> Result<ClientId, BadWhy>
    requires { IfOk number (λ value. value ≤ limits.clients - 1) }
    ensures { result ≡ client_of number }
{
    match number {
        Ok(number) => Ok(ClientId(number as u8)),
        Err(_) => Err(BadWhy::Word),
    }
}

/// A client: `c0` to `c15`.
pub fn client_in(word: &[u8]) -> Result<ClientId, BadWhy>
    ensures { result ≡ client_in word.now }
{
    match word {
        [b'c', number @ ..] => client_of(number_in(0, u64::from(CLIENTS) - 1, number)),
        [] | [_, ..] => Err(BadWhy::Word),
    }
}

/// A server: `A` or `B`.
pub(crate) fn server_in(word: &[u8]) -> Result<ServerId, BadWhy>
    ensures { result ≡ server_in word.now }
{
    if word == b"A".as_slice() {
        Ok(ServerId::A)
    } else if word == b"B".as_slice() {
        Ok(ServerId::B)
    } else {
        Err(BadWhy::Word)
    }
}

fn server_node(server: Result<ServerId, BadWhy>) -> Result<NodeId, BadWhy>
    ensures { result ≡ server_node server }
{
    match server {
        Ok(server) => Ok(NodeId::Server(server)),
        Err(why) => Err(why),
    }
}

/// A node: `c0` to `c15`, `A` or `B`.
pub(crate) fn node_in(word: &[u8]) -> Result<NodeId, BadWhy>
    ensures { result ≡ node_in word.now }
{
    match client_in(word) {
        Ok(client) => Ok(NodeId::Client(client)),
        Err(_) => server_node(server_in(word)),
    }
}

/// A mode: `r`, `w` or `rw`.
pub(crate) fn mode_in(word: &[u8]) -> Result<Mode, BadWhy>
    ensures { result ≡ mode_in word.now }
{
    if word == b"r".as_slice() {
        Ok(Mode::R)
    } else if word == b"w".as_slice() {
        Ok(Mode::W)
    } else if word == b"rw".as_slice() {
        Ok(Mode::Rw)
    } else {
        Err(BadWhy::Word)
    }
}
