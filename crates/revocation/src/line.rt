ghost use Rattle.std.specs.Prelude.{◌≡◌, ◌↔◌, ◌++◌, IsTrue, [], IfOk, OnOk, OnErr, All, drop, slice_get, filter, not};
ghost use Rattle.std.specs.Option.{option_copied};
ghost use Rattle.std.specs.List.{list_any, list_all};
ghost use Rattle.std.specs.Option.{option_to_list};
ghost use Rattle.token_kind.specs.Kept.{IsRevoke};
ghost use Rattle.token_table.specs.Table.{key_of, same_client};
ghost use Rattle.revocation.specs.Waiting.{same_request, queued, asked_at, IsRequest, own_blocker, own_blockers, Answers, AsksNothing, without_client};
ghost use Rattle.revocation.specs.Formed.{AreAskable};
ghost use Rattle.revocation.specs.Revokes.{revokes_of, is_asked, AsksAll};

use crate::asked::{AskedMap, answer, ask_all, ask_nothing, asked_at, is_asked};
pub use crate::asking::RevokeList;
use crate::asking::revokes;
use cal_base::{ClientId, Ino, Oom};
use indexmap::IndexMap;
use std::alloc::Global;
use std::collections::VecDeque;
use std::marker::Model;
use token_kind::{Blocker, BlockerList, Class, Hold, Token};
use token_table::{HoldKey, put_item};
use tree_law::Request;

/// The requests that wait at a server, in order of arrival, each once, and the holds that clients were
/// asked to lower and have not yet lowered.
#[derive(Drop)]
pub struct Line {
    requests: VecDeque<Request>,
    asked: AskedMap,
}

impl Model for Line {
    ghost use Rattle.revocation.specs.Waiting.{Waiting, IsLine};

    ghost Value = { Waiting };

    ghost view = { λ line. record { requests = line.requests.items; asked = line.asked.entries } };

    ghost invariant = { λ line. IsLine line.requests.items };
}

impl Line {
    /// A line of no requests, with nothing asked.
    pub fn new(alloc: Global) -> Result<Line, Oom>
        ensures { IfOk result (λ line. line ≡ record { requests = []; asked = [] }) }
    {
        Ok(Line {
            requests: VecDeque::new(alloc),
            asked: IndexMap::with_capacity(alloc, 16)?,
        })
    }

    /// Puts a request at the end, unless it stands in line already: one of the same client for its call
    /// of the same number. After want of memory the line is as it was.
    pub fn push(&mut self, r: Request) -> Result<(), Oom>
        requires { IsRequest r }
        ensures ok { OnOk result (self.new ≡ record self.old { requests = queued self.old.requests r }) }
        ensures err { OnErr result (self.new ≡ self.old) }
    {
        if !self.stands(&r) {
            self.requests.push_back(r)?;
        }
        Ok(())
    }

    /// The request that arrived first, or none where the line is empty. Each request in line is of a client
    /// of the cluster, has a number from 1, and asks a change or what a client may want.
    pub fn head(&self) -> Option<&Request>
        ensures head { option_copied result ≡ slice_get self.now.requests 0 }
        ensures each { All IsRequest self.now.requests }
    {
        self.requests.front()
    }

    /// Takes the head out of the line and hands it over, if there is one.
    pub fn pop(&mut self) -> Option<Request>
        ensures head { result ≡ slice_get self.old.requests 0 }
        ensures rest { self.new ≡ record self.old { requests = drop 1 self.old.requests } }
    {
        self.requests.pop_front()
    }

    /// Drops the requests of a client, and what was asked of it.
    pub fn drop_client(&mut self, c: ClientId)
        ensures requests { self.new.requests ≡ without_client self.old.requests c }
        ensures asked { AsksNothing self.old.asked self.new.asked c }
    {
        drop_requests(&mut self.requests, c);
        ask_nothing(&mut self.asked, c);
    }

    /// The Revokes to send for blockers: one for each client and inode, in the order in which these
    /// first stand among the blockers, for the holds that were not yet asked to that mode or a lower
    /// one. Those holds are then asked. Open is never asked back. After want of memory all is as it was.
    ///
    /// Where each blocker is asked to no more than may be asked, and no inode stands both as a directory
    /// and as a file, each Revoke has one or two classes by rising number.
    pub fn to_send(&mut self, blockers: &[Blocker]) -> Result<RevokeList, Oom>
        ensures revokes { IfOk result (λ revokes. revokes ≡ revokes_of self.old.asked blockers.now) }
        ensures formed { IfOk result (λ revokes. AreAskable blockers.now → All (λ sent. IsRevoke sent.1) revokes) }
        ensures asked { OnOk result (AsksAll self.old.asked self.new.asked blockers.now) }
        ensures requests { self.new.requests ≡ self.old.requests }
        ensures err { OnErr result (self.new ≡ self.old) }
    {
        let revokes = revokes(&self.asked, blockers)?;
        ask_all(&mut self.asked, blockers)?;
        Ok(revokes)
    }

    /// Whether `to_send` would send nothing for blockers, as each is asked already, or is Open: then a server
    /// whose head waits for them is idle. It takes no memory.
    pub fn is_all_asked(&self, blockers: &[Blocker]) -> bool
        ensures { IsTrue result ↔ (revokes_of self.now.asked blockers.now ≡ []) }
    {
        are_asked(&self.asked, blockers)
    }

    /// Notes that a client's hold is now this: a Revoke of it is answered where that is at or below the
    /// mode that was asked.
    pub fn lowered(&mut self, c: ClientId, ino: Ino, class: Class, to: Hold)
        ensures asked { Answers self.old.asked self.new.asked (key_of c ino «class») to }
        ensures requests { self.new.requests ≡ self.old.requests }
    {
        let key = HoldKey {
            client: c,
            ino,
            class,
        };
        answer(&mut self.asked, key, to);
    }

    /// What the client is asked to keep at most of its hold, exactly while a Revoke of it is unanswered.
    pub fn asked(&self, c: ClientId, ino: Ino, class: Class) -> Option<Hold>
        ensures { result ≡ asked_at self.now.asked (key_of c ino «class») }
    {
        let key = HoldKey {
            client: c,
            ino,
            class,
        };
        asked_at(&self.asked, key)
    }

    /// Puts at the end of a list those of the client's own needed holds of which a Revoke is unanswered, in
    /// the order of the needs: they block what it needs, beside the holds of others. Each is asked what it
    /// was asked before, so nothing new is sent for it.
    pub fn put_own(&self, c: ClientId, needs: &[Token], out: &mut BlockerList) -> Result<(), Oom>
        ensures { OnOk result (out.new ≡ out.old ++ own_blockers self.now.asked c needs.now) }
    {
        for need in needs {
            put_item(out, self.own_blocker(c, *need))?;
        }
        Ok(())
    }

    fn own_blocker(&self, c: ClientId, need: Token) -> Option<Blocker>
        ensures { result ≡ own_blocker c need (asked_at self.now.asked (key_of c need.ino need.«class»)) }
    {
        match self.asked(c, need.ino, need.class) {
            None => None,
            Some(asked) => Some(Blocker {
                client: c,
                ino: need.ino,
                class: need.class,
                asked,
            }),
        }
    }

    /// Whether the request stands in line.
    fn stands(&self, r: &Request) -> bool
        ensures { result ≡ list_any (same_request r.now) self.now.requests }
    {
        self.requests.iter().any(|other| same_request(r, other))
    }
}

/// Whether each blocker is asked already.
fn are_asked(asked: &AskedMap, blockers: &[Blocker]) -> bool
    ensures { result ≡ list_all (is_asked asked.now.entries) blockers.now }
{
    blockers.iter().all(|b| is_asked(asked, *b))
}

/// Whether two requests are one: of the same client, for its call of the same number.
fn same_request(a: &Request, b: &Request) -> bool
    ensures { result ≡ same_request a.now b.now }
{
    a.client == b.client && a.number == b.number
}

fn drop_requests(requests: &mut VecDeque<Request>, c: ClientId)
    ensures { requests.new.items ≡ without_client requests.old.items c }
{
    requests.retain(
        |r: &Request| -> bool
            ensures { result ≡ not (same_client c r.now.client) }
        { r.client != c },
    );
}
