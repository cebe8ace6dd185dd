ghost use Rattle.std.specs.Prelude.{◌≡◌, ◌≤◌, ◌<◌, true};
ghost use Rattle.cal_base.specs.Limits as limits;
ghost use Rattle.tree_law.specs.Change.{is_change};

use cal_base::ClientId;
use image::{Image, Planned};
use std::alloc::Global;
use tree_law::{Call, read_path};

/// Plans a client's change and makes it in the image.
pub(crate) fn change(
    image: &mut Image,
    alloc: Global,
    client: u8,
    number: u64,
    call: &Call,
) -> Option<Planned>
    requires client { client < limits.clients }
    requires number { 1 ≤ number }
    requires change { is_change call.now ≡ true }
{
    let planned = image
        .plan_change(alloc, ClientId(client), number, call, &[])
        .ok()?;
    image.apply(&planned.plan.edit);
    Some(planned)
}

/// Makes a file of this path, by a client's first change.
pub(crate) fn make_file(
    image: &mut Image,
    alloc: Global,
    client: u8,
    path: &[u8],
) -> Option<Planned>
    requires { client < limits.clients }
{
    let call = Call::Create(read_path(alloc, path).ok()?);
    change(image, alloc, client, 1, &call)
}

/// Whether a home is this sector, with bytes that begin so.
pub(crate) fn begins(planned: &Planned, home: usize, sector: u32, bytes: &[u8]) -> bool {
    let homes = planned.txn.homes();
    if home >= homes.len() {
        return false;
    }
    let content = homes[home].1.as_slice();
    homes[home].0 == sector && content.starts_with(bytes)
}
