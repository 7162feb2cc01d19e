//! Where a node's records are kept: devices, and the store that writes records to one. A record
//! whose write was interrupted by a stop is a torn tail, which opening truncates.
//!
//! In reading order:
//! - `device`: what a store asks of the device under it
//! - `memory`: a device in memory
//! - `failing`: a device of which one call fails on demand
//! - `count`: a count that only contracts see
//! - `reading`: the records that bytes begin with
//! - `store`: the store of a node's records
//! - `laws`: what a stop inside a call leaves
//! - `openings`: a record that was put is read again, and one that was torn is whole or gone
#![tactic(auto)]

mod count;
mod device;
mod failing;
mod laws;
mod memory;
mod openings;
mod reading;
mod store;

pub use count::Count;
pub use device::{CutDevice, Device, InfallibleDevice};
pub use failing::{DeviceCall, FailDevice};
pub use laws::{one_reading, stop_inside_open, stop_inside_put};
pub use memory::MemDevice;
pub use openings::{what_is_put_is_read_again, what_is_torn_is_cut_off};
pub use store::{NotTorn, Opened, Store};
