ghost use Rattle.std.specs.Prelude.{◌≡◌, IfOk};
ghost use Rattle.cluster_run.specs.Text.{bad_line, bad_why_text, key_line, line};

use cal_base::Oom;
use reply_text::{put, put_field};
use script::{BadLine, BadWhy};
use std::alloc::Global;

/// The word of a reason.
fn bad_why(why: BadWhy) -> &'static str
    ensures { result.now ≡ bad_why_text why }
{
    match why {
        BadWhy::Big => "Big",
        BadWhy::Many => "Many",
        BadWhy::Long => "Long",
        BadWhy::Byte => "Byte",
        BadWhy::First => "First",
        BadWhy::Word => "Word",
        BadWhy::Count => "Count",
        BadWhy::Number => "Number",
        BadWhy::Path => "Path",
        BadWhy::Hex => "Hex",
    }
}

/// The line of a bad line of a script.
pub(crate) fn bad_script_text(alloc: Global, bad: BadLine) -> Result<Vec<u8>, Oom>
    ensures { IfOk result (λ text. text.items ≡ line (bad_line bad)) }
{
    let mut text = Vec::new(alloc);
    put_field(&mut text, "BadScript ", u64::from(bad.line))?;
    put(&mut text, " ")?;
    put(&mut text, bad_why(bad.why))?;
    put(&mut text, "\n")?;
    Ok(text)
}

/// The line of the key that a disk is under already.
pub(crate) fn key_taken_text(alloc: Global, key: u64) -> Result<Vec<u8>, Oom>
    ensures { IfOk result (λ text. text.items ≡ line (key_line key)) }
{
    let mut text = Vec::new(alloc);
    put_field(&mut text, "KeyTaken ", key)?;
    put(&mut text, "\n")?;
    Ok(text)
}
