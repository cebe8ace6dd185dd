ghost use Rattle.std.specs.Prelude.{◌≡◌, ◌↔◌, ◌<◌, IfSome, IsNone, IsTrue};
ghost use Rattle.token_kind.specs.Hold.{hold_number, lesser_of, conflict};

/// How much a client may do under a token: none is less than Read, and Read less than Write.
#[derive(Clone, Copy, Debug, PartialEq, Eq, PartialOrd, Ord, Hash)]
pub enum Hold {
    /// Nothing.
    None,
    /// To read, beside other clients that do.
    Read,
    /// To read and write, alone.
    Write,
}

impl Hold {
    /// The number by which messages name it: 0 none, 1 Read, 2 Write.
    pub fn number(self) -> u8
        ensures { result ≡ hold_number self }
    {
        match self {
            Hold::None => 0,
            Hold::Read => 1,
            Hold::Write => 2,
        }
    }

    /// The hold with this number, or none where no hold has it.
    pub fn from_number(number: u8) -> Option<Hold>
        ensures numbered { IfSome result (λ hold. hold_number hold ≡ number) }
        ensures outside { IsNone result ↔ (2 < number) }
    {
        match number {
            0 => Some(Hold::None),
            1 => Some(Hold::Read),
            2 => Some(Hold::Write),
            _ => None,
        }
    }

    /// Whether this hold is more than the other.
    pub fn is_above(self, other: Hold) -> bool
        ensures { IsTrue result ↔ (hold_number other < hold_number self) }
    {
        self.number() > other.number()
    }

    /// The lesser of the two.
    pub fn lesser(self, other: Hold) -> Hold
        ensures { result ≡ lesser_of self other }
    {
        match (self, other) {
            (Hold::None, _) | (_, Hold::None) => Hold::None,
            (Hold::Read, _) | (_, Hold::Read) => Hold::Read,
            (Hold::Write, Hold::Write) => Hold::Write,
        }
    }
}

/// Whether these holds of two clients, in one class on one inode, conflict: one is Write, and the
/// other is not none.
pub fn conflicts(a: Hold, b: Hold) -> bool
    ensures { result ≡ conflict a b }
{
    match (a, b) {
        (Hold::Write, Hold::Read | Hold::Write) | (Hold::Read, Hold::Write) => true,
        (Hold::None, _) | (_, Hold::None) | (Hold::Read, Hold::Read) => false,
    }
}
