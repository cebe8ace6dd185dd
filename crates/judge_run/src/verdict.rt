ghost use Rattle.std.specs.Prelude.{◌≡◌, IfOk};
ghost use Rattle.run_status.specs.Printing.{line};
ghost use Rattle.judge_run.specs.Verdicts.{bad_text_why, verdict_line, status_of};

use cal_base::Oom;
use reply_text::{put, put_field};
use run_status::Status;
use std::alloc::Global;

/// Why a line is no line of a text. The first that applies, in this order, is told.
#[derive(Clone, Copy, Debug, PartialEq, Eq)]
pub enum BadTextWhy {
    /// It has byte 17,179,869,185 of the text.
    Big,
    /// It has more than 8,388,608 bytes, its line feed not counted.
    Long,
    /// It is the last, and lacks its line feed.
    End,
    /// It is outside its form.
    Form,
}

/// How many lines a text has so far, and how many entries and answers they tell.
#[derive(Clone, Copy, Debug, PartialEq, Eq)]
pub struct Counts {
    pub lines: u64,
    pub entries: u64,
    pub answers: u64,
}

/// What is found of a text.
#[derive(Clone, Copy, Debug, PartialEq, Eq)]
pub enum Verdict {
    /// All its lines fit to a history.
    Legal(Counts),
    /// The line of this number, from 1, tells what can't come next.
    Illegal(u64),
    /// The line of this number is no line of a text.
    Bad(u64, BadTextWhy),
}

/// The word of a reason.
fn bad_text_why(why: BadTextWhy) -> &'static str
    ensures { result.now ≡ bad_text_why why }
{
    match why {
        BadTextWhy::Big => "Big",
        BadTextWhy::Long => "Long",
        BadTextWhy::End => "End",
        BadTextWhy::Form => "Form",
    }
}

/// The line of a verdict.
pub(crate) fn verdict_text(alloc: Global, verdict: Verdict) -> Result<Vec<u8>, Oom>
    ensures { IfOk result (λ text. text.items ≡ line (verdict_line verdict)) }
{
    let mut text = Vec::new(alloc);
    match verdict {
        Verdict::Legal(counts) => {
            put_field(&mut text, "legal entries ", counts.entries)?;
            put_field(&mut text, " answers ", counts.answers)?;
        }
        Verdict::Illegal(number) => put_field(&mut text, "illegal ", number)?,
        Verdict::Bad(number, why) => {
            put_field(&mut text, "BadText ", number)?;
            put(&mut text, " ")?;
            put(&mut text, bad_text_why(why))?;
        }
    }
    put(&mut text, "\n")?;
    Ok(text)
}

/// How a judgement ends whose verdict is printed.
pub(crate) fn status_of_verdict(verdict: Verdict) -> Status
    ensures { result ≡ status_of verdict }
{
    match verdict {
        Verdict::Legal(_) => Status::Ok,
        Verdict::Illegal(_) => Status::Illegal,
        Verdict::Bad(_, _) => Status::BadText,
    }
}
