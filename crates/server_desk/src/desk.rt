ghost use Rattle.std.specs.Prelude.{◌≡◌, ◌<◌, ◌↔◌, ◌∷◌, [], ◌++◌, ℕ, IsTrue, IfOk, IfSome, List, OnOk, OnErr, All, drop, map, slice_get};
ghost use Rattle.std.specs.Option.{option_copied};
ghost use Rattle.token_kind.specs.Kept.{IsRevoke};
ghost use Rattle.token_kind.specs.Token.{HasModes, IsToken};
ghost use Rattle.token_kind.specs.declared.«class».Class.TheVariants.{Attr, Data};
ghost use Rattle.token_kind.specs.declared.grant_item.GrantItem.{GrantItem};
ghost use Rattle.token_table.specs.Table.{IsGrantable, IsTable, key_of};
ghost use Rattle.message.specs.declared.message.Message.TheVariants.{Grant, Piece as PieceOf, Release as ReleaseOf};
ghost use Rattle.rebuild.specs.Collecting.{asking, listing, missing_of, next_of, none_listed, standing_of};
ghost use Rattle.rebuild.specs.Reports.{Fits};
ghost use Rattle.revocation.specs.Formed.{AreAskable};
ghost use Rattle.revocation.specs.Revokes.{AsksAll, revokes_of};
ghost use Rattle.revocation.specs.Waiting.{IsRequest, asked_at, own_blockers, queued};
ghost use Rattle.cluster_law.specs.Lanes.{Act};
ghost use Rattle.cluster_law.specs.ServerState.{ServerState, after_acts, arriving, granted_token, hearing, is_admitted, last_flush, lowering, purging, telling, without_head, uses};
ghost use Rattle.server_book.specs.Alike.{AnswersAll, revoking};
ghost use Rattle.server_desk.specs.Desk.{IsLike, with_asked, with_listed};

use cal_base::{CLIENTS, ClientId, INODES, Ino, Oom};
use rebuild::{Collect, Reporting};
use request_log::Slot;
use revocation::{Line, RevokeList};
use std::alloc::Global;
use std::marker::Model;
use token_kind::{Blocker, BlockerList, Class, Hold, Piece, Release, Token};
use token_table::TokenTable;
use tree_law::Request;

/// What a server has collected of reports, what clients hold, which requests wait, and what was asked back.
#[derive(Drop)]
pub struct Desk {
    reports: Collect,
    line: Line,
}

impl Model for Desk {
    ghost use Rattle.server_desk.specs.Desk.{DeskValue, desk_of};

    ghost Value = { DeskValue };

    ghost view = { λ desk. desk_of desk.reports desk.line };
}

impl Desk {
    /// A desk at which nobody is listed and nothing waits, with room for all clients: as many as the window
    /// will be asked at a time, 1 to 8.
    pub fn new(alloc: Global, window: u8) -> Result<Desk, Oom>
        ensures { IfOk result (λ desk. desk ≡ record { collecting = record { window = window; standings = none_listed; table = record { holds = []; writes = [] } }; requests = []; asked = [] }) }
    {
        Ok(Desk {
            reports: Collect::new(alloc, window)?,
            line: Line::new(alloc)?,
        })
    }

    /// Lists a client: it is to be asked, and is missing until its report is whole. One that was listed
    /// before stands as it did. It takes no memory.
    pub fn list(&mut self, client: ClientId)
        ensures state { self.new ≡ record self.old { collecting = listing self.old.collecting client } }
        ensures like { (server : ServerState) → IsLike self.old server → IsLike self.new (with_listed server client) }
    {
        self.reports.list(client);
    }

    /// The client to be asked now, which then counts as asked: the least listed one that was not asked, or
    /// none where as many as the window are asked and not whole, or all listed ones that aren't purged were
    /// asked. It takes no memory.
    pub fn ask_next(&mut self) -> Option<ClientId>
        ensures next { result ≡ next_of self.old.collecting }
        ensures bound { IfSome result (λ client. client.0 < CLIENTS) }
        ensures state { self.new ≡ record self.old { collecting = asking self.old.collecting result } }
        ensures like { (server : ServerState) → IsLike self.old server → IsLike self.new (with_asked server result) }
    {
        self.reports.next_to_ask()
    }

    /// The client that is missing, if there is one: the least that is listed, not purged and not whole. While
    /// there is one, requests wait. It takes no memory.
    pub fn missing(&self) -> Option<ClientId>
        ensures missing { result ≡ missing_of self.now.collecting }
        ensures bound { IfSome result (λ client. client.0 < CLIENTS) }
    {
        self.reports.missing()
    }

    /// Where a client stands with its report.
    pub fn standing(&self, client: ClientId) -> Reporting
        ensures { result ≡ standing_of self.now.collecting client }
    {
        self.reports.standing(client)
    }

    /// Puts a request at the end of the line, unless it stands there already: one of the same client for its
    /// call of the same number. A server does so where it is admitted. After want of memory the desk is as it
    /// was.
    pub fn arrive(&mut self, request: Request) -> Result<(), Oom>
        requires { IsRequest request }
        ensures state { OnOk result (self.new ≡ record self.old { requests = queued self.old.requests request }) }
        ensures like { OnOk result ((server : ServerState) → IsLike self.old server → IsTrue (is_admitted server) → IsLike self.new (arriving server request)) }
        ensures err { OnErr result (self.new ≡ self.old) }
    {
        self.line.push(request)?;
        Ok(())
    }

    /// The request that arrived first, or none where the line is empty. Each request in line is of a client
    /// of the cluster, has a number from 1, and asks a change or what a client may want.
    pub fn head(&self) -> Option<&Request>
        ensures head { option_copied result ≡ slice_get self.now.requests 0 }
        ensures each { All IsRequest self.now.requests }
    {
        self.line.head()
    }

    /// Takes the head out of the line, if there is one: it is served, or refused, or its client is gone.
    pub fn drop_head(&mut self)
        ensures state { self.new ≡ record self.old { requests = drop 1 self.old.requests } }
        ensures like { (server : ServerState) → IsLike self.old server → IsLike self.new (without_head server) }
    {
        drop_first(&mut self.line);
    }

    /// Lowers what a client gives up, also where its report is not whole yet, and notes which Revokes are
    /// answered by it. It takes no memory.
    pub fn release(&mut self, client: ClientId, release: &Release)
        ensures { (server : ServerState) → IsLike self.old server → IsLike self.new (hearing server client (ReleaseOf release.now)) }
    {
        self.reports.release(client, release);
        answer_all(
            &mut self.line,
            self.reports.table(),
            client,
            release.ino,
            release.items.as_slice(),
        );
    }

    /// Lowers a client's holds on a file to what a flush leaves of them, once it is committed, and notes which
    /// Revokes are answered by it. It takes no memory.
    pub fn lower_by_flush(&mut self, client: ClientId, ino: Ino, leave_data: Hold, leave_attr: Hold)
        ensures { (server : ServerState) → IsLike self.old server → IsLike self.new (lowering server client ino ((Data, leave_data) ∷ (Attr, leave_attr) ∷ [])) }
    {
        self.reports.lower(client, ino, Class::Data, leave_data);
        self.reports.lower(client, ino, Class::Attr, leave_attr);
        let items = [(Class::Data, leave_data), (Class::Attr, leave_attr)];
        answer_all(&mut self.line, self.reports.table(), client, ino, &items);
    }

    /// Drops what a client holds, its requests and what was asked of it, and waits for it no longer. It takes
    /// no memory.
    pub fn purge(&mut self, client: ClientId)
        ensures { (server : ServerState) → IsLike self.old server → IsLike self.new (purging server client) }
    {
        self.reports.purge(client);
        self.line.drop_client(client);
    }

    /// Grants the client of the head what it needs, one token after the other, and takes the head out of the
    /// line. No other client may have a hold that conflicts with one of them. After want of memory the desk is
    /// as it was.
    pub fn grant(&mut self, client: ClientId, tokens: &[Token]) -> Result<(), Oom>
        requires apart { All (IsGrantable self.old.collecting.table client) tokens.now }
        requires client { client.0 < CLIENTS }
        requires inodes { All (λ token. token.ino.0 < INODES) tokens.now }
        requires modes { All IsToken tokens.now }
        ensures like { OnOk result ((server : ServerState) (number : ℕ) (items : List GrantItem) → IsLike self.old server → map granted_token items ≡ tokens.now → IsLike self.new (telling server client (Grant number items))) }
        ensures err { OnErr result (self.new ≡ self.old) }
    {
        self.reports.grant(client, tokens)?;
        drop_first(&mut self.line);
        Ok(())
    }

    /// Whether the piece can be taken: its client was asked, it is the next of that client's report, and no
    /// hold of it, judged by the client's slot, conflicts with one that another client reported. It takes no
    /// memory.
    pub fn fits(&self, client: ClientId, piece: &Piece, slot: &Slot) -> bool
        ensures fits { IsTrue result ↔ Fits self.now.collecting client piece.now slot.now.flush }
        ensures used { (server : ServerState) → IsTable self.now.collecting.table → IsLike self.now server → last_flush server client ≡ slot.now.flush → IsTrue result ↔ IsTrue (uses server client (PieceOf piece.now)) }
    {
        self.reports.fits(client, piece, slot)
    }

    /// Takes a piece that fits, and answers whether the client's report is whole. The slot is that of the
    /// client on the disk. After want of memory the desk is as it was.
    pub fn take_piece(&mut self, client: ClientId, piece: &Piece, slot: &Slot) -> Result<bool, Oom>
        requires client { client.0 < CLIENTS }
        requires fits { Fits self.old.collecting client piece.now slot.now.flush }
        requires inodes { All (λ reported. reported.token.ino.0 < INODES) piece.now.holds }
        requires modes { All HasModes piece.now.holds }
        ensures whole { IfOk result (λ whole. whole ≡ piece.now.last) }
        ensures like { OnOk result ((server : ServerState) → IsLike self.old server → last_flush server client ≡ slot.now.flush → IsLike self.new (hearing server client (PieceOf piece.now))) }
        ensures err { OnErr result (self.new ≡ self.old) }
    {
        let whole = self.reports.take_piece(client, piece, slot)?;
        Ok(whole)
    }

    /// The Revokes to send for blockers: one for each client and inode, in the order in which these first
    /// stand among the blockers, for the holds that were not yet asked to that mode or a lower one. Those
    /// holds are then asked. Open is never asked back. After want of memory the desk is as it was.
    pub fn revoke(&mut self, blockers: &[Blocker]) -> Result<RevokeList, Oom>
        ensures revokes { IfOk result (λ revokes. revokes ≡ revokes_of self.old.asked blockers.now) }
        ensures asked { OnOk result (AsksAll self.old.asked self.new.asked blockers.now) }
        ensures rest { OnOk result (self.new ≡ record self.old { asked = self.new.asked }) }
        ensures formed { IfOk result (λ revokes. AreAskable blockers.now → All (λ sent. IsRevoke sent.1) revokes) }
        ensures like { OnOk result ((start : ServerState) (before : List Act) (view : ℕ) → IsLike self.old (after_acts start before) → IsLike self.new (after_acts start (revoking view (revokes_of self.old.asked blockers.now) before))) }
        ensures err { OnErr result (self.new ≡ self.old) }
    {
        let revokes = self.line.to_send(blockers)?;
        Ok(revokes)
    }

    /// What the client is asked to keep at most of its hold, exactly while a Revoke of it is unanswered.
    pub fn asked(&self, client: ClientId, ino: Ino, class: Class) -> Option<Hold>
        ensures { result ≡ asked_at self.now.asked (key_of client ino «class») }
    {
        self.line.asked(client, ino, class)
    }

    /// Puts at the end of a list those of the client's own needed holds of which a Revoke is unanswered, in
    /// the order of the needs: they block what it needs, beside the holds of others.
    pub fn put_own(
        &self,
        client: ClientId,
        needs: &[Token],
        out: &mut BlockerList,
    ) -> Result<(), Oom>
        ensures { OnOk result (out.new ≡ out.old ++ own_blockers self.now.asked client needs.now) }
    {
        self.line.put_own(client, needs, out)?;
        Ok(())
    }

    /// The table of what clients hold.
    pub fn table(&self) -> &TokenTable
        ensures { result.now ≡ self.now.collecting.table }
    {
        self.reports.table()
    }
}

/// Takes the head out of a line, if there is one.
fn drop_first(line: &mut Line)
    ensures { line.new ≡ record line.old { requests = drop 1 line.old.requests } }
{
    line.pop();
}

/// Notes of holds of a client on an inode that they are now these of the table: a Revoke of one is answered
/// where it is at or below the mode that was asked.
fn answer_all(
    line: &mut Line,
    table: &TokenTable,
    client: ClientId,
    ino: Ino,
    items: &[(Class, Hold)],
)
    ensures asked { AnswersAll table.now client ino items.now line.old.asked line.new.asked }
    ensures requests { line.new.requests ≡ line.old.requests }
{
    for (class, _) in items {
        line.lowered(client, ino, *class, table.held(client, ino, *class));
    }
}
