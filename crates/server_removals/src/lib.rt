//! What a server removes in a tick: clients that are gone, and files that nobody uses.
//!
//! A tick purges the client that is due ([`least_due`], [`purge`]). Where none is, an admitted server deals with
//! the least file without a name that nobody has open ([`deal_with_orphan`]): it asks back all holds of its bytes
//! and its size, or, where nobody holds any, frees it. [`removes_nothing`] tells whether a tick would do nothing of
//! this.
//!
//! Promised: whom and what the law's server removes is removed, as the law says of such an act, and nothing else
//! (`follows` of [`purge`] and [`deal_with_orphan`]); nothing is left undone (`done`, `deals`); and
//! [`removes_nothing`] is exact. After want of memory nothing is promised of a draft.
#![tactic(auto)]

mod gone_clients;
mod holders;
mod orphans;
mod quiet;

pub use gone_clients::{least_due, purge};
pub use orphans::deal_with_orphan;
pub use quiet::removes_nothing;
