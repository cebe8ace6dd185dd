ghost use Rattle.std.specs.Prelude.{◌≡◌, ◌≤◌, All, IfOk, OnOk, length, map};
ghost use Rattle.client_cache.specs.Reports.{reports};
ghost use Rattle.message.specs.Range.{IsPiece};
ghost use Rattle.report.specs.Report.{pieces_of};
ghost use Rattle.token_kind.specs.Flush.{IsFlush};
ghost use Rattle.client_book.specs.Made.{flush_message, piece_message};
ghost use Rattle.outbox.specs.Sending.{put_all, put_in};

use crate::client::Client;
use cal_base::Oom;
use message::Message;
use outbox::Outbox;
use report::{Report, pieces};
use token_kind::{Flush, Piece};

impl Client {
    /// Sends what is held, in pieces.
    pub(crate) fn send_report(&self, out: &mut Outbox) -> Result<(), Oom>
        ensures { OnOk result (out.new ≡ put_all out.old (map piece_message (pieces_of (reports self.now.memory.known)))) }
    {
        let holds = self.memory.cache().holds()?;
        let report = pieces(self.alloc, holds.as_slice())?;
        send_pieces(report, out)
    }

    /// Sends the flushes that are under way, each as the record that was made when it started.
    pub(crate) fn send_flushes(&self, out: &mut Outbox) -> Result<(), Oom>
        ensures { OnOk result (out.new ≡ put_all out.old (map flush_message self.now.memory.known.flushes)) }
    {
        send_each(self.memory.cache().outstanding(), out)
    }
}

fn send_each(flushes: &[Flush], out: &mut Outbox) -> Result<(), Oom>
    requires { All IsFlush flushes.now }
    ensures { OnOk result (out.new ≡ put_all out.old (map flush_message flushes.now)) }
{
    for flush in flushes {
        out.flush(flush)?;
    }
    Ok(())
}

#[tactic(auto, unfolding(outbox::specs::Sending::put_all))]
fn send_pieces(report: Report, out: &mut Outbox) -> Result<(), Oom>
    requires { All IsPiece report }
    ensures { OnOk result (out.new ≡ put_all out.old (map piece_message report)) }
{
    for piece in report.into_vec() {
        send_piece(piece, out)?;
    }
    Ok(())
}

fn send_piece(piece: Piece, out: &mut Outbox) -> Result<(), Oom>
    requires { IsPiece piece }
    ensures { OnOk result (out.new ≡ put_in out.old (piece_message piece)) }
{
    out.send(&Message::Piece(piece))
}
