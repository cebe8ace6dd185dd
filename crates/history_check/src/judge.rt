ghost use Rattle.std.specs.Prelude.{◌≡◌, [], IfOk, OnOk, IsErrOf, replicate};
ghost use Rattle.tree_law.specs.Legal.{IsNext, after};
ghost use Rattle.history_check.specs.Judging.{JudgeValue, Refuses, Stands, Takes, no_call, standing_of};
ghost use Rattle.history_check.specs.Steps.{as_started, CanAnswer, CanStart, CannotCarryOut, CannotEnter, CarriesOut, Enters, EntersIn, IsClient, with_standing, with_tree};
ghost use Rattle.history_check.specs.declared.judge.TakeError.TheVariants.{OutOfMemory};

use crate::reading::reading;
use crate::standing::{Progress, Standing};
use crate::told::Told;
use cal_base::{Blob, CLIENTS, ClientId, Ino, Oom};
use std::alloc::Global;
use std::marker::Model;
use std::mem;
use tree_law::{ApplyError, Call, Entry, PlainTree};

/// Why a line was not taken.
#[derive(Clone, Copy, Debug, PartialEq, Eq)]
pub enum TakeError {
    /// The lines so far don't go on with this one. The judge is as it was.
    Illegal,
    /// Memory ran out. Nothing is said of the judge then.
    OutOfMemory,
}

impl From<Oom> for TakeError {
    ghost from_gives = { λ _ e. e ≡ OutOfMemory };

    fn from(_error: Oom) -> TakeError {
        TakeError::OutOfMemory
    }
}

/// The entry of a call, as a line tells it.
#[derive(Drop)]
struct Entering {
    client: ClientId,
    number: u64,
    new_ino: Option<Ino>,
    /// The reply as it is written.
    reply: Blob,
}

/// What is kept of the lines of a text so far: the tree that their history makes, and where the last call
/// of each of the 16 clients stands.
#[derive(Drop)]
pub struct Judge {
    alloc: Global,
    tree: PlainTree,
    standings: Vec<Standing>,
}

impl Model for Judge {
    ghost use Rattle.std.specs.Prelude.{◌≡◌, length};
    ghost use Rattle.history_check.specs.Judging.{JudgeValue};

    ghost Value = { JudgeValue };

    ghost use Rattle.tree_law.specs.contracts.plain_tree.PlainTree as plain;
    ghost use Rattle.history_check.specs.contracts.standing.Standing as place;
    ghost use Rattle.std.specs.Coded.{codes};

    ghost coded = { Prim.hlevel (codes, plain.the_row.coded, place.the_row.coded) };

    ghost view = { λ judge. record { tree = judge.tree; standings = judge.standings.items } };

    ghost invariant = { λ judge. length judge.standings.items ≡ 16 };
}

impl Judge {
    /// A judge of a text of which no line was read.
    pub fn new(alloc: Global) -> Result<Judge, Oom>
        ensures { IfOk result (λ judge. Stands judge [] []) }
    {
        let tree = PlainTree::new(alloc)?;
        let standings = first_standings(alloc)?;
        Ok(Judge {
            alloc,
            tree,
            standings,
        })
    }

    /// Takes what the next line tells, exactly where it fits the lines taken so far.
    ///
    /// `Illegal` comes exactly where the lines so far, which fit, don't go on with this one; the judge is
    /// then as it was. After want of memory nothing is said of it.
    pub fn take(&mut self, told: Told) -> Result<(), TakeError>
        ensures ok { OnOk result (Takes self.old told self.new) }
        ensures illegal { IsErrOf result TakeError.Illegal → Refuses self.old told }
        ensures same { IsErrOf result TakeError.Illegal → self.new ≡ self.old }
    {
        match told {
            Told::Starts {
                client,
                number,
                call,
            } => self.start(client, number, call),
            Told::Enters {
                client,
                number,
                new_ino,
                reply,
            } => self.enter(Entering {
                client,
                number,
                new_ino,
                reply,
            }),
            Told::Flushes { client, ino } => self.apply(&Entry::Flush { client, ino }),
            Told::Purges { client } => self.apply(&Entry::Purge { client }),
            Told::Answers {
                client,
                number,
                reply,
            } => self.end(client, number, &reply),
        }
    }

    /// Takes the start of a client's next call, where its last is answered.
    fn start(&mut self, client: ClientId, number: u64, call: Call) -> Result<(), TakeError>
        ensures can { OnOk result (IsClient client × CanStart (standing_of self.old client) number) }
        ensures ok { OnOk result (self.new ≡ with_standing self.old client (record { number = number; progress = Progress.Started call })) }
        ensures illegal { IsErrOf result TakeError.Illegal → IsClient client → ¬ (CanStart (standing_of self.old client) number) }
        ensures same { IsErrOf result TakeError.Illegal → self.new ≡ self.old }
    {
        if client.0 >= CLIENTS || !self.standings[client.0 as usize].can_start(number) {
            return Err(TakeError::Illegal);
        }
        self.standings[client.0 as usize] = Standing {
            number,
            progress: Progress::Started(call),
        };
        Ok(())
    }

    /// Takes the entry of a client's last call.
    fn enter(&mut self, entering: Entering) -> Result<(), TakeError>
        ensures ok { OnOk result (EntersIn self.old entering.client entering.number entering.new_ino entering.reply self.new) }
        ensures illegal { IsErrOf result TakeError.Illegal → IsClient entering.client → CannotEnter self.old.tree (standing_of self.old entering.client) entering.client entering.number entering.new_ino entering.reply }
        ensures same { IsErrOf result TakeError.Illegal → self.new ≡ self.old }
    {
        let client = entering.client;
        if client.0 >= CLIENTS {
            return Err(TakeError::Illegal);
        }
        let standing = &mut self.standings[client.0 as usize];
        enter_at(self.alloc, &mut self.tree, standing, entering)
    }

    /// Takes the answer of a client's last call, with a reply that is written so.
    fn end(&mut self, client: ClientId, number: u64, text: &Blob) -> Result<(), TakeError>
        ensures can { OnOk result (IsClient client × CanAnswer (standing_of self.old client) number text.now) }
        ensures ok { OnOk result (self.new ≡ with_standing self.old client (record { number = number; progress = Progress.Answered })) }
        ensures illegal { IsErrOf result TakeError.Illegal → IsClient client → ¬ (CanAnswer (standing_of self.old client) number text.now) }
        ensures same { IsErrOf result TakeError.Illegal → self.new ≡ self.old }
    {
        if client.0 >= CLIENTS || !self.standings[client.0 as usize].can_answer(number, text) {
            return Err(TakeError::Illegal);
        }
        self.standings[client.0 as usize] = Standing {
            number,
            progress: Progress::Answered,
        };
        Ok(())
    }

    /// Takes an entry of no call.
    fn apply(&mut self, entry: &Entry) -> Result<(), TakeError>
        ensures legal { OnOk result (IsNext self.old.tree entry.now) }
        ensures ok { OnOk result (self.new ≡ with_tree self.old (after self.old.tree entry.now)) }
        ensures illegal { IsErrOf result TakeError.Illegal → ¬ (IsNext self.old.tree entry.now) }
        ensures same { IsErrOf result TakeError.Illegal → self.new ≡ self.old }
    {
        match self.tree.apply(entry) {
            Ok(()) => Ok(()),
            Err(ApplyError::NotLegal) => Err(TakeError::Illegal),
            Err(ApplyError::OutOfMemory) => Err(TakeError::OutOfMemory),
        }
    }
}

/// The standings before the first line.
fn first_standings(alloc: Global) -> Result<Vec<Standing>, Oom>
    ensures { IfOk result (λ standings. standings.items ≡ replicate 16 no_call) }
{
    let mut standings = Vec::with_capacity(alloc, CLIENTS as usize)?;
    for _i in 0..CLIENTS {
        standings.push(Standing {
            number: 0,
            progress: Progress::Answered,
        })?;
    }
    Ok(standings)
}

/// Takes the entry of the call that stands here, if it is of this number and has none.
fn enter_at(
    alloc: Global,
    tree: &mut PlainTree,
    standing: &mut Standing,
    entering: Entering,
) -> Result<(), TakeError>
    ensures ok { OnOk result (Enters tree.old standing.old entering.client entering.number entering.new_ino entering.reply tree.new standing.new) }
    ensures illegal { IsErrOf result TakeError.Illegal → CannotEnter tree.old standing.old entering.client entering.number entering.new_ino entering.reply }
    ensures same_tree { IsErrOf result TakeError.Illegal → tree.new ≡ tree.old }
    ensures same { IsErrOf result TakeError.Illegal → standing.new ≡ standing.old }
{
    if standing.number != entering.number {
        return Err(TakeError::Illegal);
    }
    match mem::replace(&mut standing.progress, Progress::Answered) {
        Progress::Started(call) => enter_call(alloc, tree, standing, call, entering),
        Progress::Entered(reply) => {
            standing.progress = Progress::Entered(reply);
            Err(TakeError::Illegal)
        }
        Progress::Answered => Err(TakeError::Illegal),
    }
}

/// Takes the entry of a call that was started; where it is refused, the call stands there again.
fn enter_call(
    alloc: Global,
    tree: &mut PlainTree,
    standing: &mut Standing,
    call: Call,
    entering: Entering,
) -> Result<(), TakeError>
    ensures ok { OnOk result (CarriesOut tree.old entering.client entering.number call entering.new_ino entering.reply tree.new standing.new) }
    ensures illegal { IsErrOf result TakeError.Illegal → CannotCarryOut tree.old entering.client call entering.new_ino entering.reply }
    ensures same_tree { IsErrOf result TakeError.Illegal → tree.new ≡ tree.old }
    ensures same { IsErrOf result TakeError.Illegal → standing.new ≡ record { number = entering.number; progress = Progress.Started call } }
{
    let Entering {
        client,
        number,
        new_ino,
        reply: text,
    } = entering;
    let Some(reply) = reading(alloc, tree, client, &call, &text)? else {
        put(standing, number, Progress::Started(call));
        return Err(TakeError::Illegal);
    };
    let entry = Entry::Call {
        client,
        number,
        call,
        reply,
        new_ino,
    };
    match tree.apply(&entry) {
        Ok(()) => {
            put(standing, number, Progress::Entered(text));
            Ok(())
        }
        Err(ApplyError::NotLegal) => {
            put(standing, number, as_started(entry));
            Err(TakeError::Illegal)
        }
        Err(ApplyError::OutOfMemory) => Err(TakeError::OutOfMemory),
    }
}

/// Puts the number of a call, and how far it is, into a standing.
fn put(standing: &mut Standing, number: u64, progress: Progress)
    ensures { standing.new ≡ record { number = number; progress = progress } }
{
    *standing = Standing { number, progress };
}

/// The call of an entry, started again.
fn as_started(entry: Entry) -> Progress
    ensures { result ≡ as_started entry }
{
    match entry {
        Entry::Call {
            call,
            reply: _reply,
            ..
        } => Progress::Started(call),
        Entry::Flush { .. } => Progress::Answered,
        Entry::Purge { .. } => Progress::Answered,
    }
}
