ghost use Rattle.std.specs.Prelude.{◌≡◌, [], IfOk};

use cal_base::{Blob, Items, Oom};
use std::alloc::Global;
use std::marker::Model;
use std::sync::Arc;

/// The body of a message. Its copies share the bytes, and contracts see it as their list.
#[derive(Debug, Drop)]
pub struct Body {
    bytes: Option<Arc<Blob, Global>>,
}

impl Model for Body {
    ghost use Rattle.std.specs.Prelude.{ℕ, List};
    ghost use Rattle.session.specs.Body.{shared_bytes};

    ghost Value = { List ℕ };

    ghost view = { λ it. shared_bytes it.bytes };
}

impl Body {
    /// No bytes.
    pub fn empty() -> Body
        ensures { result ≡ [] }
    {
        Body { bytes: None }
    }

    /// The bytes of a `Vec`, which are moved and not copied.
    pub fn new(alloc: Global, bytes: Vec<u8>) -> Result<Body, Oom>
        ensures { IfOk result (λ body. body ≡ bytes.items) }
    {
        let shared = Arc::new(alloc, Items::from_vec(bytes))?;
        Ok(Body {
            bytes: Some(shared),
        })
    }

    /// The same bytes once more, which are not copied.
    pub fn share(&self) -> Result<Body, Oom>
        ensures { IfOk result (λ body. body ≡ self.now) }
    {
        match &self.bytes {
            None => Ok(Body { bytes: None }),
            Some(bytes) => {
                let shared = Arc::try_clone(bytes)?;
                Ok(Body {
                    bytes: Some(shared),
                })
            }
        }
    }

    /// The bytes.
    pub fn as_slice(&self) -> &[u8]
        ensures { result.now ≡ self.now }
    {
        match &self.bytes {
            None => &[],
            Some(bytes) => bytes.as_slice(),
        }
    }
}

impl PartialEq for Body {
    ghost use Rattle.std.specs.Prelude.{nat_eq};
    ghost use Rattle.std.specs.Cmp.{nat_eq_equiv, partial_equiv_from_equiv};
    ghost use Rattle.std.specs.Cmp.Lexicographic.{pointwise, lists_equiv};

    ghost eq = { λ a b. pointwise nat_eq a b };

    ghost laws = { partial_equiv_from_equiv (lists_equiv nat_eq_equiv) };

    fn eq(&self, other: &Body) -> bool {
        self.as_slice() == other.as_slice()
    }
}

impl Eq for Body {
    ghost use Rattle.std.specs.Cmp.{nat_eq_equiv};
    ghost use Rattle.std.specs.Cmp.Lexicographic.{lists_equiv};

    ghost laws = { lists_equiv nat_eq_equiv };
}
