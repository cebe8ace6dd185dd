ghost use Rattle.std.specs.Prelude.{◌≡◌, ◌≤◌, ◌<◌, ◌+◌, ◌^◌, ℕ, IfOk, OnErr, length};
ghost use Rattle.cluster_law.specs.History.{writes_of_acts};
ghost use Rattle.server_draft.specs.Acts.{acts_of};
ghost use Rattle.server_writes.specs.Planned.{writes_by};

use cal_base::Oom;
use journal::commit_length;
use server_draft::Act;

/// How many writes some acts make. It answers want of memory only where they can't be counted, and takes none.
pub fn count_writes(acts: &[Act]) -> Result<usize, Oom>
    ensures many { OnErr result ((view : ℕ) → 2 ^ 64 ≤ length (writes_of_acts (acts_of view acts.now))) }
    ensures count { IfOk result (λ count. (view : ℕ) → count ≡ length (writes_of_acts (acts_of view acts.now))) }
{
    let mut count = 0;
    for act in acts {
        count = with_writes(count, act)?;
    }
    Ok(count)
}

/// A count of writes with those of an act.
fn with_writes(count: usize, act: &Act) -> Result<usize, Oom>
    ensures many { OnErr result (2 ^ 64 ≤ count + length (writes_by act.now)) }
    ensures count { IfOk result (λ sum. sum ≡ count + length (writes_by act.now)) }
{
    match act {
        Act::Commits(commit) => {
            let laid = sum(count, commit.lays.len())?;
            let all = sum(laid, commit_length(commit.homes.homes().len()))?;
            Ok(all)
        }
        _ => Ok(count),
    }
}

/// The sum, where it can be counted.
fn sum(a: usize, b: usize) -> Result<usize, Oom>
    ensures many { OnErr result (2 ^ 64 ≤ a + b) }
    ensures sum { IfOk result (λ sum. sum ≡ a + b) }
{
    match a.checked_add(b) {
        Some(sum) => Ok(sum),
        None => Err(Oom),
    }
}

/// How many writes an act makes.
pub(crate) fn writes_of(act: &Act) -> usize
    requires { length (writes_by act.now) < 2 ^ 64 }
    ensures { result ≡ length (writes_by act.now) }
{
    match act {
        Act::Commits(commit) => commit.lays.len() + commit_length(commit.homes.homes().len()),
        _ => 0,
    }
}
