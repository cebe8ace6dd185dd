ghost use Rattle.std.specs.Prelude.{◌≡◌};
ghost use Rattle.revocation.specs.Revokes.{is_within};
ghost use Rattle.token_kind.specs.Hold.{is_held};
ghost use Rattle.token_kind.specs.declared.hold.Hold.TheVariants.{None as Nothing};
ghost use Rattle.server_removals.specs.Removals.{is_asked_back, is_asked_of_all, is_held_by_some};

use cal_base::{CLIENTS, ClientId, Ino};
use server_desk::Desk;
use token_kind::{Class, Hold};
use token_table::TokenTable;

/// Whether some client has a hold of a file in a class. It takes no memory.
pub(crate) fn is_held_by_some(table: &TokenTable, ino: Ino, class: Class) -> bool
    ensures { result ≡ is_held_by_some table.now ino class }
{
    for number in 0..CLIENTS {
        if is_held(table.held(ClientId(number), ino, class)) {
            return true;
        }
    }
    false
}

/// Whether all clients that have a hold of a file in a class are asked to give it up. It takes no memory.
pub(crate) fn is_asked_of_all(desk: &Desk, ino: Ino, class: Class) -> bool
    ensures { result ≡ is_asked_of_all desk.now ino class }
{
    for number in 0..CLIENTS {
        if !is_asked_back(desk, ino, class, ClientId(number)) {
            return false;
        }
    }
    true
}

/// Whether a client has no hold of a file in a class, or is asked to give it up.
fn is_asked_back(desk: &Desk, ino: Ino, class: Class, client: ClientId) -> bool
    ensures { result ≡ is_asked_back desk.now ino class client }
{
    !is_held(desk.table().held(client, ino, class)) || keeps_nothing(desk.asked(client, ino, class))
}

/// Whether what is asked, if anything is, leaves nothing of a hold.
fn keeps_nothing(asked: Option<Hold>) -> bool
    ensures { result ≡ is_within asked Nothing }
{
    match asked {
        Some(Hold::None) => true,
        Some(Hold::Read) | Some(Hold::Write) => false,
        None => false,
    }
}

/// Whether a hold is more than none.
fn is_held(hold: Hold) -> bool
    ensures { result ≡ is_held hold }
{
    match hold {
        Hold::None => false,
        Hold::Read | Hold::Write => true,
    }
}
