ghost use Rattle.std.specs.Prelude.{◌≡◌, IfOk};
ghost use Rattle.tree_law.specs.declared.request.Asked.TheVariants.{Change as Alters};
ghost use Rattle.cluster_law.specs.ServerState.{as_request};
ghost use Rattle.server_line.specs.Known.{HasChange, HasHead, IsHead};

use cal_base::{ClientId, Oom};
use server_draft::Draft;
use tree_law::{Asked, Call, Request};

/// The request at the head of the line.
pub(crate) fn head_of(draft: &Draft) -> &Request
    requires { HasHead draft.now }
    ensures { IsHead draft.now result.now }
{
    match draft.desk.head() {
        Some(request) => request,
        None => unreachable!(),
    }
}

/// The change at the head of the line.
pub(crate) fn change_of(draft: &Draft, client: ClientId, number: u64) -> &Call
    requires { HasChange draft.now client number }
    ensures { IsHead draft.now (as_request client number (Alters result.now)) }
{
    match draft.desk.head() {
        Some(request) => match &request.asked {
            Asked::Change(call) => call,
            Asked::Want(_) => unreachable!(),
        },
        None => unreachable!(),
    }
}

/// A call once more: a commit keeps the change while its request still stands at the head of the line.
pub(crate) fn copy_of(call: &Call) -> Result<Call, Oom>
    ensures { IfOk result (λ copy. copy ≡ call.now) }
{
    let copy = call.clone()?;
    Ok(copy)
}
