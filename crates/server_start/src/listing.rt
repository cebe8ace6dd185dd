ghost use Rattle.std.specs.Prelude.{◌≡◌, ◌<◌, if◌then◌else◌, filter};
ghost use Rattle.cal_base.specs.Limits as limits;
ghost use Rattle.cluster_law.specs.ServerState.{is_present, listing_all};
ghost use Rattle.rebuild.specs.Collecting.{listing};
ghost use Rattle.token_table.specs.Blockers.{clients_below};

use cal_base::ClientId;
use image::Image;
use server_desk::Desk;

/// Lists the clients of the volume whose purge isn't marked.
pub(crate) fn list_present(desk: &mut Desk, image: &Image)
    ensures { desk.new ≡ record desk.old { collecting = listing_all desk.old.collecting (filter (is_present image.now) (clients_below image.now.clients)) } }
{
    for number in 0..image.clients() {
        list_if_present(desk, image, ClientId(number));
    }
}

/// Lists a client, if its purge isn't marked.
fn list_if_present(desk: &mut Desk, image: &Image, client: ClientId)
    requires { client.0 < limits.clients }
    ensures { desk.new ≡ record desk.old { collecting = if is_present image.now client then listing desk.old.collecting client else desk.old.collecting } }
{
    if !image.slot(client).purged {
        desk.list(client);
    }
}
