ghost use Rattle.std.specs.Prelude.{◌≡◌};
ghost use Rattle.rebuild.specs.Collecting.{is_unlisted, is_to_ask, is_asked, is_missing};

/// Where a collecting server stands with a client.
#[derive(Clone, Copy, Debug, PartialEq, Eq)]
pub enum Reporting {
    /// The client isn't listed: nothing is asked of it.
    Unlisted,
    /// It is listed and not yet asked.
    Listed,
    /// It was asked, and the piece of this number of its report comes next.
    Asked(u32),
    /// Its report is whole.
    Whole,
    /// It is purged: it holds nothing, and isn't waited for.
    Purged,
}

impl Reporting {
    /// Whether it isn't listed.
    pub fn is_unlisted(self) -> bool
        ensures { result ≡ is_unlisted self }
    {
        match self {
            Reporting::Unlisted => true,
            Reporting::Listed | Reporting::Asked(_) | Reporting::Whole | Reporting::Purged => false,
        }
    }

    /// Whether it is listed and not yet asked.
    pub fn is_to_ask(self) -> bool
        ensures { result ≡ is_to_ask self }
    {
        match self {
            Reporting::Listed => true,
            Reporting::Unlisted | Reporting::Asked(_) | Reporting::Whole | Reporting::Purged =>
                false,
        }
    }

    /// Whether it was asked, and its report isn't whole.
    pub fn is_asked(self) -> bool
        ensures { result ≡ is_asked self }
    {
        match self {
            Reporting::Asked(_) => true,
            Reporting::Unlisted | Reporting::Listed | Reporting::Whole | Reporting::Purged => false,
        }
    }

    /// Whether it is waited for: listed, not purged, and its report isn't whole.
    pub fn is_missing(self) -> bool
        ensures { result ≡ is_missing self }
    {
        match self {
            Reporting::Listed | Reporting::Asked(_) => true,
            Reporting::Unlisted | Reporting::Whole | Reporting::Purged => false,
        }
    }
}
