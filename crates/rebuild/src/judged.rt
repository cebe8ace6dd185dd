ghost use Rattle.std.specs.Prelude.{◌≡◌, IfOk, map};
ghost use Rattle.rebuild.specs.Reports.{judged_hold, judged};

use cal_base::Oom;
use std::alloc::Global;
use token_kind::{Hold, Reported, Token};

/// What a reported hold counts as, by the number of the client's last committed flush: what an
/// outstanding flush leaves of it, if that flush is committed, and else what was reported.
pub fn judged_hold(reported: Reported, flushed: u64) -> Hold
    ensures { result ≡ judged_hold reported flushed }
{
    if 0 < reported.flush && reported.flush <= flushed {
        reported.leave
    } else {
        reported.token.hold
    }
}

/// The token that a reported hold counts as.
pub fn judged(reported: Reported, flushed: u64) -> Token
    ensures { result ≡ judged flushed reported }
{
    Token {
        ino: reported.token.ino,
        class: reported.token.class,
        hold: judged_hold(reported, flushed),
    }
}

/// The tokens that reported holds count as.
pub fn judged_all(alloc: Global, holds: &[Reported], flushed: u64) -> Result<Vec<Token>, Oom>
    ensures { IfOk result (λ tokens. tokens.items ≡ map (judged flushed) holds.now) }
{
    let mut tokens = Vec::with_capacity(alloc, holds.len())?;
    for reported in holds {
        tokens.push(judged(*reported, flushed))?;
    }
    Ok(tokens)
}
