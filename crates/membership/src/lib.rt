//! Who is in the cluster: its clients, each running, crashed or declared gone, and the view that is
//! open with its server.
//!
//! A cluster starts with all clients running and view 1 open (`new`). `crash` and `declare` note what is
//! said from outside, `next_view` opens the next view with a server; `declared`, `crashed`, `standing`,
//! `clients`, `view` and `server` answer what stands. A client is declared gone only after it crashed,
//! each once, the numbers of views rise by one, and a call that is refused changes nothing.
#![tactic(auto)]

mod members;
mod not_so;
mod standing;

pub use members::Members;
pub use not_so::NotSo;
pub use standing::Standing;
