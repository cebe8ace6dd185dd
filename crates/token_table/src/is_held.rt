ghost use Rattle.std.specs.Prelude.{◌≡◌};
ghost use Rattle.token_table.specs.Table.{is_held};

use token_kind::Hold;

/// Whether the hold is more than none.
pub fn is_held(hold: Hold) -> bool
    ensures { result ≡ is_held hold }
{
    match hold {
        Hold::None => false,
        Hold::Read | Hold::Write => true,
    }
}
