//! Serves the connections of a door: each is one session over its bytes.
#![tactic(auto)]

mod alone;
mod both;
mod connection;
mod end;
mod forks;
mod server;
mod shared_door;
mod worker;
mod workers;

pub use alone::serve_alone;
pub use connection::CONNECTION_BYTES;
pub use end::DoorEnd;
pub use server::serve_door;
