ghost use Rattle.std.specs.Prelude.{◌≡◌};
ghost use Rattle.client_cache.specs.Holds.{hold_in, is_held, no_holds, with_hold};

use token_kind::{Class, Hold};

/// What a client holds of one inode, by class.
#[derive(Clone, Copy, Debug, PartialEq, Eq)]
pub struct Holds {
    pub names: Hold,
    pub contents: Hold,
    pub attr: Hold,
    pub open: Hold,
}

impl Holds {
    /// Nothing is held.
    pub(crate) fn none() -> Holds
        ensures { result ≡ no_holds }
    {
        Holds {
            names: Hold::None,
            contents: Hold::None,
            attr: Hold::None,
            open: Hold::None,
        }
    }

    /// The hold in a class.
    pub(crate) fn get(self, class: Class) -> Hold
        ensures { result ≡ hold_in self class }
    {
        match class {
            Class::Names => self.names,
            Class::Data => self.contents,
            Class::Attr => self.attr,
            Class::Open => self.open,
        }
    }

    /// Makes a hold another one.
    pub(crate) fn set(&mut self, class: Class, hold: Hold)
        ensures { self.new ≡ with_hold self.old class hold }
    {
        match class {
            Class::Names => self.names = hold,
            Class::Data => self.contents = hold,
            Class::Attr => self.attr = hold,
            Class::Open => self.open = hold,
        }
    }
}

/// Whether something is held.
pub(crate) fn is_held(hold: Hold) -> bool
    ensures { result ≡ is_held hold }
{
    match hold {
        Hold::None => false,
        Hold::Read | Hold::Write => true,
    }
}
