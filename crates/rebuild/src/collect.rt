ghost use Rattle.std.specs.Prelude.{◌≡◌, ◌<◌, ◌↔◌, IsTrue, IfOk, IfSome, length, OnOk, OnErr, All, None, [], count_by, position, slice_set};
ghost use Rattle.std.specs.Option.{option_map};
ghost use Rattle.token_table.specs.Table.{IsGrantable};
ghost use Rattle.token_table.specs.Series.{Same, with_lowered};
ghost use Rattle.token_kind.specs.Token.{HasModes, IsToken};
ghost use Rattle.token_table.specs.Series.{with_holds};
ghost use Rattle.rebuild.specs.Collecting.{none_listed, standing_of, is_asked, is_to_ask, first_to_ask, listing, next_of, asking, missing_of, is_missing, client, phase_by, phase_of};
ghost use Rattle.rebuild.specs.Reports.{judged, Fits, after_piece, Takes, Releases, Lowers, Grants, Purges};
ghost use Rattle.rebuild.specs.declared.reporting.Reporting.TheVariants.{Asked};

use crate::judged::{judged, judged_all};
use crate::phase::Phase;
use crate::reporting::Reporting;
use cal_base::{CLIENTS, ClientId, INODES, Ino, Oom};
use request_log::Slot;
use std::alloc::Global;
use std::marker::Model;
use token_kind::{Class, Hold, Piece, Release, Reported, Token};
use token_table::TokenTable;

/// What a server has collected of the reports of clients, whom it has asked, and what clients hold since.
#[derive(Drop)]
pub struct Collect {
    alloc: Global,
    window: u8,
    standings: [Reporting; 16],
    table: TokenTable,
}

impl Model for Collect {
    ghost use Rattle.rebuild.specs.Collecting.{Collecting};

    ghost Value = { Collecting };

    ghost view = { λ s. record { window = s.window; standings = s.standings; table = s.table } };
}

impl Collect {
    /// Collecting from nobody yet, with room for all clients: as many as the window will be asked at a
    /// time, 1 to 8.
    pub fn new(alloc: Global, window: u8) -> Result<Collect, Oom>
        ensures { IfOk result (λ s. s ≡ record { window = window; standings = none_listed; table = record { holds = []; writes = [] } }) }
    {
        Ok(Collect {
            alloc,
            window,
            standings: [Reporting::Unlisted; 16],
            table: TokenTable::new(alloc)?,
        })
    }

    /// Lists a client: it is to be asked, and is missing until its report is whole. One that was listed
    /// before stands as it did. It takes no memory.
    pub fn list(&mut self, c: ClientId)
        ensures { self.new ≡ listing self.old c }
    {
        if self.standing(c).is_unlisted() {
            set(&mut self.standings, c, Reporting::Listed);
        }
    }

    /// The client to be asked now, which then counts as asked: the least listed one that was not asked,
    /// or none where as many as the window are asked and not whole, or all listed ones that aren't
    /// purged were asked.
    pub fn next_to_ask(&mut self) -> Option<ClientId>
        ensures next { result ≡ next_of self.old }
        ensures asked { self.new ≡ asking self.old result }
        ensures bound { IfSome result (λ c. c.0 < CLIENTS) }
    {
        let next = self.next();
        if let Some(c) = next {
            set(&mut self.standings, c, Reporting::Asked(0));
        }
        next
    }

    /// Whether the piece can be taken: its client was asked, it is the next of that client's report, and
    /// no hold of it, judged by the client's slot, conflicts with one that another client reported. It
    /// takes no memory.
    pub fn fits(&self, c: ClientId, p: &Piece, slot: &Slot) -> bool
        ensures { IsTrue result ↔ Fits self.now c p.now slot.now.flush }
    {
        self.is_next(c, p.index) && self.are_grantable(c, p.holds.as_slice(), slot.flush)
    }

    /// Takes a piece that fits, and answers whether the client's report is whole. Each hold under an
    /// outstanding flush counts as what that flush leaves where the slot has its number or a higher one.
    /// After want of memory all is as it was.
    pub fn take_piece(&mut self, c: ClientId, p: &Piece, slot: &Slot) -> Result<bool, Oom>
        requires client { c.0 < CLIENTS }
        requires fits { Fits self.old c p.now slot.now.flush }
        requires inodes { All (λ r. r.token.ino.0 < INODES) p.now.holds }
        requires modes { All HasModes p.now.holds }
        ensures whole { IfOk result (λ whole. whole ≡ p.now.last) }
        ensures ok { OnOk result (Takes self.old self.new c p.now slot.now.flush) }
        ensures err { OnErr result (self.new ≡ self.old) }
    {
        let tokens = judged_all(self.alloc, p.holds.as_slice(), slot.flush)?;
        self.table.grant_all(c, tokens.as_slice())?;
        set(&mut self.standings, c, after_piece(p));
        Ok(p.last)
    }

    /// Lowers what a client reported, also where its report is not whole yet.
    pub fn release(&mut self, c: ClientId, r: &Release)
        ensures { Releases self.old self.new c r.now }
    {
        lower_all(&mut self.table, c, r.ino, r.items.as_slice());
    }

    /// Drops what a client reported, and waits for it no longer.
    pub fn purge(&mut self, c: ClientId)
        ensures { Purges self.old self.new c }
    {
        self.table.drop_client(c);
        set(&mut self.standings, c, Reporting::Purged);
    }

    /// Lowers one hold of a client to the lesser of what it is and `to`, as its flush or its release says.
    pub fn lower(&mut self, c: ClientId, ino: Ino, class: Class, to: Hold)
        ensures { Lowers self.old self.new c ino class to }
    {
        self.table.lower(c, ino, class, to);
    }

    /// Grants what the client needs, one token after the other. No other client may have a hold that
    /// conflicts with one of them. The Data Write holds that the client has keep their places in the order
    /// of writes. After want of memory all is as it was.
    pub fn grant(&mut self, c: ClientId, tokens: &[Token]) -> Result<(), Oom>
        requires apart { All (IsGrantable self.old.table c) tokens.now }
        requires client { c.0 < CLIENTS }
        requires inodes { All (λ token. token.ino.0 < INODES) tokens.now }
        requires modes { All IsToken tokens.now }
        ensures ok { OnOk result (Grants self.old self.new c tokens.now) }
        ensures err { OnErr result (self.new ≡ self.old) }
    {
        self.table.grant_needs(c, tokens)?;
        Ok(())
    }

    /// The client that is missing, if there is one: the least that is listed, not purged and not whole. A
    /// request waits for it, exactly while the server collects. It takes no memory.
    pub fn missing(&self) -> Option<ClientId>
        ensures missing { result ≡ missing_of self.now }
        ensures bound { IfSome result (λ c. c.0 < CLIENTS) }
        ensures phase { phase_of self.now ≡ phase_by result }
    {
        first(first_missing(&self.standings))
    }

    /// Where the server stands: it collects while a client is missing, and is admitted where none is.
    pub fn phase(&self) -> Phase
        ensures { result ≡ phase_of self.now }
    {
        phase_by(self.missing())
    }

    /// The table of what clients hold. While the server collects: what was reported so far, each flush
    /// judged, less what was lowered and purged; Data Write holds stand in the order in which the reports
    /// became whole, and within a report in its order.
    pub fn table(&self) -> &TokenTable
        ensures { result.now ≡ self.now.table }
    {
        &self.table
    }

    /// The table alone, once no client is missing.
    pub fn finish(self) -> TokenTable
        requires { missing_of self ≡ None }
        ensures { result ≡ self.table }
    {
        let Collect { table, .. } = self;
        table
    }

    /// Where a client stands, while the server collects and after.
    pub fn standing(&self, c: ClientId) -> Reporting
        ensures standing { result ≡ standing_of self.now c }
        ensures all { length self.now.standings ≡ CLIENTS }
    {
        match self.standings.get(c.0 as usize) {
            Some(standing) => *standing,
            None => Reporting::Unlisted,
        }
    }

    fn next(&self) -> Option<ClientId>
        ensures next { result ≡ next_of self.now }
        ensures bound { IfSome result (λ c. c.0 < CLIENTS) }
    {
        if self.asked() < self.window as usize {
            self.first_to_ask()
        } else {
            None
        }
    }

    fn asked(&self) -> usize
        ensures { result ≡ count_by is_asked self.now.standings }
    {
        self.standings
            .iter()
            .filter(|standing| standing.is_asked())
            .count()
    }

    fn first_to_ask(&self) -> Option<ClientId>
        ensures first { result ≡ first_to_ask self.now }
        ensures bound { IfSome result (λ c. c.0 < CLIENTS) }
    {
        first(first_unasked(&self.standings))
    }

    /// Whether the client was asked and this piece of its report comes next.
    fn is_next(&self, c: ClientId, index: u16) -> bool
        ensures { IsTrue result ↔ (standing_of self.now c ≡ Asked index) }
    {
        self.standing(c) == Reporting::Asked(u32::from(index))
    }

    fn are_grantable(&self, c: ClientId, holds: &[Reported], flushed: u64) -> bool
        ensures { IsTrue result ↔ All (λ r. IsGrantable self.now.table c (judged flushed r)) holds.now }
    {
        for reported in holds {
            if !self.table.is_grantable(c, judged(*reported, flushed)) {
                return false;
            }
        }
        true
    }
}

/// Puts a client elsewhere.
fn set(standings: &mut [Reporting; 16], c: ClientId, standing: Reporting)
    ensures { standings.new ≡ slice_set standings.old c.0 standing }
{
    if c.0 < CLIENTS {
        standings[c.0 as usize] = standing;
    }
}

/// The client with a number, if there is one.
fn first(number: Option<usize>) -> Option<ClientId>
    requires { IfSome number (λ number. number < CLIENTS) }
    ensures client { result ≡ option_map client number }
    ensures bound { IfSome result (λ c. c.0 < CLIENTS) }
{
    match number {
        Some(number) => Some(ClientId(number as u8)),
        None => None,
    }
}

fn first_missing(standings: &[Reporting]) -> Option<usize>
    ensures first { result ≡ position is_missing standings.now }
    ensures bound { IfSome result (λ number. number < length standings.now) }
{
    standings.iter().position(|standing| standing.is_missing())
}

fn first_unasked(standings: &[Reporting]) -> Option<usize>
    ensures first { result ≡ position is_to_ask standings.now }
    ensures bound { IfSome result (λ number. number < length standings.now) }
{
    standings.iter().position(|standing| standing.is_to_ask())
}

/// Where a server stands, by the client that is missing.
fn phase_by(missing: Option<ClientId>) -> Phase
    ensures { result ≡ phase_by missing }
{
    match missing {
        None => Phase::Admitted,
        Some(_) => Phase::Collecting,
    }
}

/// Where a client stands once a piece of its report is taken.
fn after_piece(p: &Piece) -> Reporting
    ensures { result ≡ after_piece p.now }
{
    if p.last {
        Reporting::Whole
    } else {
        Reporting::Asked(u32::from(p.index) + 1)
    }
}

/// Lowers holds of a client on an inode.
fn lower_all(table: &mut TokenTable, c: ClientId, ino: Ino, items: &[(Class, Hold)])
    ensures { Same table.new (with_lowered table.old c ino items.now) }
{
    for (class, hold) in items {
        table.lower(c, ino, *class, *hold);
    }
}
