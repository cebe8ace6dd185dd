//! Numbers in bytes, the highest byte first, and sectors that are filled field by field.
//!
//! - `put_u8` to `put_u64` and `put_bytes` put a field at the end of a `Vec<u8>`; after want of memory
//!   nothing of it is there.
//! - `take_u8` to `take_u64` and `take_bytes` take one from the front of a slice. What is taken is what
//!   was put, and the bytes taken are those that putting it gives, so a number has one spelling.
//!   [`Short`] comes exactly where too few bytes stand, and then nothing is taken.
//! - [`SectorFields`] is a sector that is filled from its first byte: contracts see it as the bytes put
//!   so far, and `finish` leaves zeros behind them. So an old byte of a sector can't stay.
//! - [`is_zeros`] and [`padded_front`] look whether zeros alone stand behind a sector's fields.
#![tactic(auto)]

mod padding;
mod put;
mod sector_fields;
mod short;
mod take;

pub use padding::{is_zeros, padded_front};
pub use put::{put_bytes, put_u8, put_u16, put_u32, put_u64};
pub use sector_fields::SectorFields;
pub use short::Short;
pub use take::{take_bytes, take_u8, take_u16, take_u32, take_u64};
