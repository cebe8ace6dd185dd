ghost use Rattle.std.specs.Prelude.{◌≡◌, ◌≤◌, ◌++◌, ℕ, List, Option, length, [], IfOk};
ghost use Rattle.std.specs.Io.KnownBytes.{IsAtEnd};
ghost use Rattle.judge_run.specs.Passing.{IsReady, IsFresh, HasRead, Passes, TakesFront, EndsPiece};
ghost use Rattle.judge_run.specs.Texts.{IsUncut};
ghost use Rattle.judge_run.specs.Verdicts.{IsFound};
ghost use Rattle.judge_run.specs.declared.judging.Passed.TheVariants.{Fits};

use crate::judging::{Judging, LINE_BYTES, Passed};
use crate::verdict::{BadTextWhy, Verdict};
use cal_base::{Oom, cut_at};
use std::alloc::Global;

/// What is kept of a text so far: the judgement of its whole lines, and the front of the line that was
/// begun.
#[derive(Drop)]
pub struct TextJudge {
    pub judging: Judging,
    /// At most 8,388,608 bytes, without a line feed.
    pub begun: Vec<u8>,
}

/// What a piece of a text comes to.
#[derive(Clone, Copy, Debug, PartialEq, Eq)]
pub enum PieceEnd {
    /// The text goes on.
    GoesOn,
    /// A line in the piece, or one that ends in it, settles the verdict.
    Finds(Verdict),
    /// A line was begun that is too long, and not kept; it has so many bytes so far.
    TooLong(u64),
}

impl TextJudge {
    /// Before the first byte.
    pub(crate) fn new(alloc: Global) -> Result<TextJudge, Oom>
        ensures { IfOk result (λ judge. IsFresh judge) }
    {
        let judging = Judging::new(alloc)?;
        Ok(TextJudge {
            judging,
            begun: Vec::new(alloc),
        })
    }

    /// Takes a piece of the text, line by line.
    pub(crate) fn take_piece(&mut self, alloc: Global, piece: &[u8]) -> Result<PieceEnd, Oom>
        requires ready { IsReady self.old }
        requires short { length piece.now ≤ 65536 }
        ensures { IfOk result (λ end. EndsPiece self.old piece.now end self.new) }
    {
        let mut rest = piece;
        loop {
            let (front, behind) = cut_at(rest, b'\n');
            match behind {
                None => {
                    let end = self.put_off(front)?;
                    return Ok(end);
                }
                Some(behind) => match self.take_front(alloc, front)? {
                    Some(verdict) => return Ok(PieceEnd::Finds(verdict)),
                    None => rest = behind,
                },
            }
        }
    }

    /// Takes the line that ends behind these bytes, and answers the verdict if that is settled.
    fn take_front(&mut self, alloc: Global, front: &[u8]) -> Result<Option<Verdict>, Oom>
        requires ready { IsReady self.old }
        requires uncut { IsUncut front.now }
        ensures { IfOk result (λ found. TakesFront self.old front.now found self.new) }
    {
        let number = self.judging.next_number();
        match self.end_line(alloc, front)? {
            Passed::Fits => Ok(None),
            Passed::Illegal => Ok(Some(Verdict::Illegal(number))),
            Passed::Bad(why) => Ok(Some(Verdict::Bad(number, why))),
        }
    }

    /// Takes the line that ends behind these bytes: where it began in the same piece, without a copy.
    fn end_line(&mut self, alloc: Global, front: &[u8]) -> Result<Passed, Oom>
        requires ready { IsReady self.old }
        requires uncut { IsUncut front.now }
        ensures passes { IfOk result (λ passed. Passes self.old.judging (self.old.begun.items ++ front.now) passed self.new.judging) }
        ensures cleared { IfOk result (λ passed. passed ≡ Fits → self.new.begun.items ≡ []) }
    {
        if self.begun.is_empty() {
            return self.judging.take_line(alloc, front);
        }
        if let Some(why) = self.judging.limit_passed(self.begun.len() + front.len()) {
            return Ok(Passed::Bad(why));
        }
        self.begun.extend_from_slice(front)?;
        let passed = self.judging.take_line(alloc, self.begun.as_slice())?;
        self.begun.clear();
        Ok(passed)
    }

    /// Keeps the front of a line that goes on in the next piece.
    fn put_off(&mut self, front: &[u8]) -> Result<PieceEnd, Oom>
        requires ready { IsReady self.old }
        requires uncut { IsUncut front.now }
        requires short { length front.now ≤ 65536 }
        ensures { IfOk result (λ end. EndsPiece self.old front.now end self.new) }
    {
        let length = self.begun.len() + front.len();
        if self.judging.is_behind(length) {
            let number = self.judging.next_number();
            return Ok(PieceEnd::Finds(Verdict::Bad(number, BadTextWhy::Big)));
        }
        if length as u64 > LINE_BYTES {
            return Ok(PieceEnd::TooLong(length as u64));
        }
        self.begun.extend_from_slice(front)?;
        Ok(PieceEnd::GoesOn)
    }

    /// The verdict where the text ends here.
    pub(crate) fn end(&self) -> Verdict
        requires ready { IsReady self.now }
        ensures { (left : Option (List ℕ)) (text : List ℕ) → HasRead self.now text → IsAtEnd left → IsFound left text result }
    {
        if self.begun.is_empty() {
            Verdict::Legal(self.judging.counts())
        } else {
            Verdict::Bad(self.judging.next_number(), BadTextWhy::End)
        }
    }
}
