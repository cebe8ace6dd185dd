ghost use Rattle.std.specs.Prelude.{◌≡◌, ◌↔◌, ◌<◌, ◌⊎◌, IfSome, IsNone};
ghost use Rattle.token_kind.specs.Class.{class_number, has_write};

/// What of a file or directory a token is about.
#[derive(Clone, Copy, Debug, PartialEq, Eq, PartialOrd, Ord, Hash)]
pub enum Class {
    /// The entries of a directory: read alone.
    Names,
    /// The contents of a file: read or written.
    Data,
    /// The size of a file: read or written.
    Attr,
    /// That an inode is kept while a file is open: shared, and never called back.
    Open,
}

impl Class {
    /// The number by which messages name it: 1 Names, 2 Data, 3 Attr, 4 Open.
    pub fn number(self) -> u8
        ensures { result ≡ class_number self }
    {
        match self {
            Class::Names => 1,
            Class::Data => 2,
            Class::Attr => 3,
            Class::Open => 4,
        }
    }

    /// The class with this number, or none where no class has it.
    pub fn from_number(number: u8) -> Option<Class>
        ensures numbered { IfSome result (λ class. class_number class ≡ number) }
        ensures outside { IsNone result ↔ ((number ≡ 0) ⊎ (4 < number)) }
    {
        match number {
            1 => Some(Class::Names),
            2 => Some(Class::Data),
            3 => Some(Class::Attr),
            4 => Some(Class::Open),
            _ => None,
        }
    }

    /// Whether a hold of this class can be Write: of Data and Attr alone.
    pub fn has_write(self) -> bool
        ensures { result ≡ has_write self }
    {
        match self {
            Class::Data | Class::Attr => true,
            Class::Names | Class::Open => false,
        }
    }
}
