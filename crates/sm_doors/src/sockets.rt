// Sockets of links: how long they wait, which addresses of a back are tried, and how a front is closed (RFC 9112, section 9.6).
ghost use Rattle.std.specs.Prelude.{◌≤◌};

use crate::tcp_ends::TcpSource;
use std::io;
use std::io::{ErrorKind, Read};
use std::net::{
    Ipv4Addr, Net, OpenStream, Shutdown, SocketAddr, SocketAddrV4, TcpStream, ToSocketAddrs,
};
use std::time::{Clock, Duration, Instant};

/// How long a front may keep silent, in seconds.
pub const FRONT_READ_SECONDS: u64 = 5;
/// How long a back may keep silent, in seconds.
pub const BACK_READ_SECONDS: u64 = 60;
/// How long a write may wait, in seconds.
pub const WRITE_SECONDS: u64 = 30;
/// How long one address of the back may take to answer, in seconds.
pub const CONNECT_SECONDS: u64 = 5;
/// How long a front that is closed is read on, in seconds.
pub const LINGER_SECONDS: u64 = 2;
// How often it is read then, at most.
const LINGER_READS: u32 = 1_024;
// How many addresses of the back are tried.
const MOST_ADDRESSES: usize = 4;

/// The addresses of a back that are tried, in their order.
#[derive(Clone, Copy, Drop)]
pub(crate) struct BackAddresses {
    found: [SocketAddr; MOST_ADDRESSES],
    count: usize,
    ghost few: { count ≤ 4 },
}

impl BackAddresses {
    pub(crate) fn none() -> Self {
        let nowhere = SocketAddr::V4(SocketAddrV4::new(Ipv4Addr::new(0, 0, 0, 0), 0));
        BackAddresses {
            found: [nowhere; MOST_ADDRESSES],
            count: 0,
        }
    }

    pub(crate) fn one(address: SocketAddr) -> Self {
        BackAddresses {
            found: [address; MOST_ADDRESSES],
            count: 1,
        }
    }
}

/// The first addresses that a text stands for, which is a host or an IP address, and a port.
pub(crate) fn back_addresses<R: Net>(net: &R, connect: &str) -> Result<BackAddresses, ErrorKind> {
    let addresses = match connect.to_socket_addrs(net) {
        Ok(addresses) => addresses,
        Err(error) => return Err(error.kind()),
    };
    let BackAddresses { mut found, .. } = BackAddresses::none();
    let mut count = 0;
    for address in addresses {
        match found.get_mut(count) {
            Some(place) => {
                *place = address;
                count += 1;
            }
            None => break,
        }
    }
    if count == 0 {
        return Err(ErrorKind::NotFound);
    }
    Ok(BackAddresses {
        found,
        count: count.min(MOST_ADDRESSES),
    })
}

// Sets how long a socket waits, and that it sends at once; and gives it a second handle.
fn prepared<S: OpenStream>(stream: &S, read_seconds: u64) -> io::Result<S> {
    stream.set_nodelay(true)?;
    stream.set_read_timeout(Some(Duration::from_secs(read_seconds)))?;
    stream.set_write_timeout(Some(Duration::from_secs(WRITE_SECONDS)))?;
    stream.try_clone()
}

fn two_ends<S: OpenStream + Drop>(stream: S, read_seconds: u64) -> Result<(S, S), ErrorKind> {
    match prepared(&stream, read_seconds) {
        Ok(other) => Ok((stream, other)),
        Err(error) => Err(error.kind()),
    }
}

/// The two ends of a front.
pub(crate) fn front_ends<S: OpenStream + Drop>(stream: S) -> Result<(S, S), ErrorKind> {
    two_ends(stream, FRONT_READ_SECONDS)
}

// The two ends of a connection to this address.
fn ends_at<R: Net>(net: &R, address: &SocketAddr) -> Result<(R::Stream, R::Stream), ErrorKind> {
    match TcpStream::connect_timeout(net, address, Duration::from_secs(CONNECT_SECONDS)) {
        Ok(stream) => two_ends(stream, BACK_READ_SECONDS),
        Err(error) => Err(error.kind()),
    }
}

/// The two ends of a connection to the first of these addresses that answers, or why the last one didn't.
pub(crate) fn back_ends<R: Net>(
    net: &R,
    back: &BackAddresses,
) -> Result<(R::Stream, R::Stream), ErrorKind> {
    let mut why = ErrorKind::NotFound;
    for address in &back.found[..back.count] {
        match ends_at(net, address) {
            Ok(ends) => return Ok(ends),
            Err(kind) => why = kind,
        }
    }
    Err(why)
}

/// Closes a front behind its last answer. What it still sends is read and dropped for a while, since a socket that is closed with bytes unread
/// takes the answer away with it. A front that failed isn't read on: it was silent.
pub(crate) fn linger<R: Clock, S: Read + OpenStream + Drop>(clock: &R, front: TcpSource<S>) {
    let TcpSource { stream, why, .. } = front;
    let (Some(mut stream), None) = (stream, why) else {
        return;
    };
    if stream.shutdown(Shutdown::Write).is_ok()
        && let Ok(begun) = Instant::now(clock)
    {
        read_on(clock, &mut stream, begun);
    }
}

// How long is left of the while in which a front is read on.
fn time_left<R: Clock>(clock: &R, begun: Instant) -> Option<Duration> {
    let spent = begun.elapsed(clock).ok()?;
    Duration::from_secs(LINGER_SECONDS).checked_sub(spent)
}

// Reads and drops bytes until they end, or the while is over.
fn read_on<R: Clock, S: Read + OpenStream>(clock: &R, stream: &mut S, begun: Instant) {
    let mut room = [0; 16_384];
    for _ in 0..LINGER_READS {
        let left = time_left(clock, begun);
        if left.is_none() || stream.set_read_timeout(left).is_err() {
            return;
        }
        match stream.read(&mut room) {
            Ok(0) => return,
            Ok(_) => {}
            Err(error) => match error.kind() {
                ErrorKind::Interrupted => {}
                _ => return,
            },
        }
    }
}
