// The edge: sources and sinks over TCP, doors that accept and connect, the clock, and flags that stop.
#![tactic(auto)]

mod askers;
mod callers;
mod edge;
mod ends;
mod flag;
mod links;
mod pending;
mod ports;
mod real_clock;
mod stop_flag;
mod tcp_doors;

pub use flag::Flag;
pub use links::{TcpSink, TcpSource};
pub use real_clock::RealClock;
pub use stop_flag::StopFlag;
pub use tcp_doors::TcpDoors;
