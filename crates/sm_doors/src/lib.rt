// Doors: they listen, give links between a front and a back one after the other, and close them.
// Over memory they tell what each link read and wrote; over TCP they keep timeouts, and lose a link rather than the server.
#![tactic(auto)]

mod doors;
mod link;
mod mem_doors;
mod sockets;
mod tcp_doors;
mod tcp_ends;

pub use doors::{Doors, Phase};
pub use link::Link;
pub use mem_doors::MemDoors;
pub use sockets::{
    BACK_READ_SECONDS, CONNECT_SECONDS, FRONT_READ_SECONDS, LINGER_SECONDS, WRITE_SECONDS,
};
pub use tcp_doors::{ACCEPT_TRIES, DoorsFault, TcpDoors};
pub use tcp_ends::{TcpSink, TcpSource};
