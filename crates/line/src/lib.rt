//! The lines of the service cable: each carries one reply of at most 32 data bytes to a far end, which checks it.
#![tactic(auto)]

pub mod asynchronous;
pub mod framed;
pub mod line;
pub mod sending;
pub mod store;
pub mod three_wire;
pub mod wires;

pub use asynchronous::Asynchronous;
pub use line::{Line, REPLY_BYTES, WIRE_BYTES};
pub use sending::{round_trip, send};
pub use three_wire::ThreeWire;
pub use wires::wires_stand;
