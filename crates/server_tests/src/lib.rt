//! Tests of servers: over a door in memory, over doors whose clients fail or wait for one another, and over TCP with a
//! client in the same process.
#![tactic(auto)]

#[cfg(test)]
mod failing_clients;
#[cfg(test)]
mod memory_doors;
#[cfg(test)]
mod shared_doors;
#[cfg(test)]
mod tcp_clients;
