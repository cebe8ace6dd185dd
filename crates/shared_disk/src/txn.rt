ghost use Rattle.std.specs.Prelude.{◌≡◌};
ghost use Rattle.shared_disk.specs.Homes.{IsTransaction};

use cal_base::Sector;
use std::marker::Model;

/// A transaction: 1 to 16 home sectors in ascending order, each with what is to stand there. A home is
/// sector 0, or one of 19 to 2,595; the gate and the journal's body between them are none.
#[derive(Drop)]
pub struct Txn {
    homes: Vec<(u32, Sector)>,
}

impl Model for Txn {
    ghost use Rattle.std.specs.Prelude.{List, ℕ};
    ghost use Rattle.shared_disk.specs.Homes.{IsTransaction};

    ghost Value = { List (ℕ × List ℕ) };

    ghost view = { λ txn. txn.homes.items };

    ghost invariant = { λ txn. IsTransaction txn.homes.items };
}

impl Txn {
    /// A transaction of these homes.
    pub fn new(homes: Vec<(u32, Sector)>) -> Txn
        requires { IsTransaction homes.items }
        ensures { result ≡ homes.items }
    {
        Txn { homes }
    }

    /// The homes with their contents, ascending.
    pub fn homes(&self) -> &[(u32, Sector)]
        ensures homes { result.now ≡ self.now }
        ensures allowed { IsTransaction result.now }
    {
        self.homes.as_slice()
    }
}
