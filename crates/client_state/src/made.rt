ghost use Rattle.std.specs.Prelude.{◌≡◌, [], None as Missing};

use cal_base::{Blob, Items};
use outbox::Outbox;
use std::alloc::Global;
use tree_law::{Call, Reply};

/// A call that a step finished.
#[derive(Debug, Drop)]
pub struct Finished {
    pub call: Call,
    pub reply: Reply,
}

/// What a step of a client makes.
#[derive(Debug, Drop)]
pub struct Made {
    /// The bodies of its messages, in order, as they are to be numbered.
    pub bodies: Items<Blob>,
    /// The outstanding call, if the step finishes it, with its reply.
    pub finished: Option<Finished>,
}

impl Made {
    /// A step that makes nothing.
    pub fn nothing(alloc: Global) -> Made
        ensures { result ≡ record { bodies = []; finished = Missing } }
    {
        Made {
            bodies: Items::new(alloc),
            finished: None,
        }
    }

    /// What an outbox has, and a call that is finished.
    pub(crate) fn of(out: Outbox, finished: Option<Finished>) -> Made
        ensures { result ≡ record { bodies = out.bodies; finished = finished } }
    {
        Made {
            bodies: out.into_bodies(),
            finished,
        }
    }
}
