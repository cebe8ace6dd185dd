//! A client's report of what it holds, in pieces.
//!
//! A client that is asked by a new server cuts its holds by `pieces`, and sends each piece as a message.
//! The pieces together are the holds, in order; there is one piece at least, each but the last has 32
//! holds, the last alone says that it is the last, and each is numbered by its place.
#![tactic(auto)]

ghost use Rattle.std.specs.Prelude.{◌≡◌, ◌+◌, ◌*◌, ◌^◌, ◌≤◌, length, IfOk, All};
ghost use Rattle.std.specs.List.{flat_map};
ghost use Rattle.report.specs.Report.{pieces_of, full_piece, AreNumbered};

use cal_base::{HOLDS_PER_PIECE, INODES, Items, Oom};
use std::alloc::Global;
use token_kind::{Piece, Reported, ReportedList};

/// A client's report, in pieces.
pub type Report = Items<Piece>;

/// The pieces of a report of these holds, at most 2,097,152 of them: 32 holds in each piece but the
/// last, which has the rest; a report of no hold is one piece of none. Each piece has its place as its
/// number, so numbers are below 65,536; the holds of one client, at most one of each of the four classes
/// on each inode, make at most 64 pieces.
pub fn pieces(alloc: Global, holds: &[Reported]) -> Result<Report, Oom>
    requires { length holds.now ≤ 2 ^ 21 }
    ensures pieces { IfOk result (λ report. report ≡ pieces_of holds.now) }
    ensures together { IfOk result (λ report. flat_map (λ piece. piece.holds) report ≡ holds.now) }
    ensures numbered { IfOk result (AreNumbered 0) }
    ensures count { IfOk result (λ report. length report ≤ 2 ^ 16) }
    ensures few { IfOk result (λ report. length holds.now ≤ INODES * 4 → length report ≤ 64) }
    ensures sizes { IfOk result (All (λ piece. length piece.holds ≤ HOLDS_PER_PIECE)) }
{
    let report = cut(alloc, holds)?;
    Ok(report)
}

fn cut(alloc: Global, holds: &[Reported]) -> Result<Report, Oom>
    requires { length holds.now ≤ 2 ^ 21 }
    ensures { IfOk result (λ report. report ≡ pieces_of holds.now) }
{
    let full = (holds.len().saturating_sub(1) / HOLDS_PER_PIECE) as u16;
    let mut report = Items::new(alloc);
    for index in 0..full {
        report.push(full_piece(alloc, holds, index)?)?;
    }
    let rest = &holds[full as usize * HOLDS_PER_PIECE..];
    report.push(piece(alloc, full, true, rest)?)?;
    Ok(report)
}

fn full_piece(alloc: Global, holds: &[Reported], index: u16) -> Result<Piece, Oom>
    requires { index * HOLDS_PER_PIECE + HOLDS_PER_PIECE ≤ length holds.now }
    ensures { IfOk result (λ piece. piece ≡ full_piece holds.now index) }
{
    let rest = &holds[index as usize * HOLDS_PER_PIECE..];
    let (held, _) = rest.split_at(HOLDS_PER_PIECE);
    piece(alloc, index, false, held)
}

fn piece(alloc: Global, index: u16, last: bool, holds: &[Reported]) -> Result<Piece, Oom>
    ensures { IfOk result (λ piece. piece ≡ record { index = index; last = last; holds = holds.now }) }
{
    Ok(Piece {
        index,
        last,
        holds: ReportedList::from_vec(Vec::from_slice(alloc, holds)?),
    })
}
