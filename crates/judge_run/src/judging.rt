ghost use Rattle.std.specs.Prelude.{◌≡◌, ◌≤◌, ◌<◌, ◌+◌, ◌^◌, nat_lt, IfOk};
ghost use Rattle.judge_run.specs.Passing.{IsBounded, IsBegun, Passes, PassesTold, counted, limit_passed};
ghost use Rattle.judge_run.specs.Texts.{IsUncut};

use crate::verdict::{BadTextWhy, Counts};
use cal_base::Oom;
use history_check::{Judge, TakeError, Told, a_text_has_one_history};
use line_words::ReadWordsError;
use std::alloc::Global;
use text_lines::read_told;

/// Bytes of a text.
pub(crate) const TEXT_BYTES: u64 = 17_179_869_184;

/// Bytes of one line of a text, its line feed not counted.
pub(crate) const LINE_BYTES: u64 = 8_388_608;

/// What is kept of the lines so far.
#[derive(Drop)]
pub struct Judging {
    judge: Judge,
    counts: Counts,
    /// How many bytes of the text the lines so far have.
    before: u64,
}

/// What a line does to a judgement.
#[derive(Clone, Copy, Debug, PartialEq, Eq)]
pub enum Passed {
    /// It is good, and fits.
    Fits,
    /// It is good, and can't come next.
    Illegal,
    /// It is bad.
    Bad(BadTextWhy),
}

impl Judging {
    /// Before the first line.
    pub(crate) fn new(alloc: Global) -> Result<Judging, Oom>
        ensures { IfOk result (λ judging. IsBegun judging) }
    {
        let judge = Judge::new(alloc)?;
        Ok(Judging {
            judge,
            counts: Counts {
                lines: 0,
                entries: 0,
                answers: 0,
            },
            before: 0,
        })
    }

    /// Takes the next line, without its line feed.
    pub(crate) fn take_line(&mut self, alloc: Global, line: &[u8]) -> Result<Passed, Oom>
        requires bounded { IsBounded self.old }
        requires uncut { IsUncut line.now }
        ensures { IfOk result (λ passed. Passes self.old line.now passed self.new) }
    {
        if let Some(why) = self.limit_passed(line.len()) {
            return Ok(Passed::Bad(why));
        }
        match read_told(alloc, line) {
            Ok(told) => self.take_told(told, line.len()),
            Err(ReadWordsError::Form) => Ok(Passed::Bad(BadTextWhy::Form)),
            Err(ReadWordsError::OutOfMemory) => Err(Oom),
        }
    }

    /// The limit that a line of this length passes, its line feed not counted.
    pub(crate) fn limit_passed(&self, length: usize) -> Option<BadTextWhy>
        requires { self.now.before + length < 2 ^ 64 }
        ensures { result ≡ limit_passed self.now.before length }
    {
        if self.before + length as u64 >= TEXT_BYTES {
            Some(BadTextWhy::Big)
        } else if length as u64 > LINE_BYTES {
            Some(BadTextWhy::Long)
        } else {
            None
        }
    }

    /// Whether so many bytes behind the lines so far go past the limit of a text.
    pub(crate) fn is_behind(&self, length: usize) -> bool
        requires { self.now.before + length < 2 ^ 64 }
        ensures { result ≡ nat_lt 17179869184 (self.now.before + length) }
    {
        self.before + length as u64 > TEXT_BYTES
    }

    /// The number of the next line.
    pub(crate) fn next_number(&self) -> u64
        requires { IsBounded self.now }
        ensures { result ≡ self.now.counts.lines + 1 }
    {
        self.counts.lines + 1
    }

    /// How many lines, entries and answers there are so far.
    pub(crate) fn counts(&self) -> Counts
        ensures { result ≡ self.now.counts }
    {
        self.counts
    }

    /// How many bytes the lines so far have.
    pub(crate) fn before(&self) -> u64
        ensures { result ≡ self.now.before }
    {
        self.before
    }

    /// Takes what a line of this length tells.
    fn take_told(&mut self, told: Option<Told>, length: usize) -> Result<Passed, Oom>
        requires bounded { IsBounded self.old }
        requires within { self.old.before + length < 17179869184 }
        ensures { IfOk result (λ passed. PassesTold self.old told length passed self.new) }
    {
        a_text_has_one_history();
        self.before += length as u64 + 1;
        self.counts.lines += 1;
        let Some(told) = told else {
            return Ok(Passed::Fits);
        };
        self.counts = counted(self.counts, &told);
        match self.judge.take(told) {
            Ok(()) => Ok(Passed::Fits),
            Err(TakeError::Illegal) => Ok(Passed::Illegal),
            Err(TakeError::OutOfMemory) => Err(Oom),
        }
    }
}

/// The counts with what a line tells.
fn counted(counts: Counts, told: &Told) -> Counts
    requires entries { counts.entries ≤ 17179869184 }
    requires answers { counts.answers ≤ 17179869184 }
    ensures { result ≡ counted counts told.now }
{
    match told {
        Told::Starts { .. } => counts,
        Told::Enters { .. } | Told::Flushes { .. } | Told::Purges { .. } => Counts {
            entries: counts.entries + 1,
            ..counts
        },
        Told::Answers { .. } => Counts {
            answers: counts.answers + 1,
            ..counts
        },
    }
}
