//! A port of UDP, and what is told of its datagrams.
ghost use Rattle.std.specs.Prelude.{◌≡◌};
ghost use Rattle.xcpd.specs.Counted.{network_of};

use crate::listen;
use std::io;
use std::net::{SocketAddr, UdpSocket};
use std::sync::Wait;
use xcp_program::{Fault, Listening, ListeningUdp, Network, refuse_many};
use xcp_seats::{Access, Port, Traffic};

/// By what tools reach a server at this port of this address: by TCP, or by UDP.
pub fn access_at(rt: &HostRuntime, host: &str, port: u16, udp: bool) -> Result<Access, Fault> {
    if !udp {
        return Ok(Access::Streams(listen(rt, host, port)?));
    }
    let Ok((socket, address)) = bound_at(rt, host, port) else {
        return Err(Fault::Stream(0));
    };
    refuse_many(address.ip())?;
    match Port::new(rt.alloc(), socket) {
        Ok(port) => Ok(Access::Datagrams(port)),
        Err(_) => Err(Fault::Memory),
    }
}

/// A socket for datagrams at this port, and its address.
fn bound_at(rt: &HostRuntime, host: &str, port: u16) -> io::Result<(UdpSocket, SocketAddr)> {
    let socket = UdpSocket::bind(rt, (host, port))?;
    let address = socket.local_addr()?;
    Ok((socket, address))
}

/// Says that a server takes connections or datagrams at this port.
pub fn print_listening(rt: &HostRuntime, access: &Access, port: u16) {
    // Where nobody reads it, tools come all the same.
    let _ = match access {
        Access::Streams(_) => rt.print(Listening { port }),
        Access::Datagrams(_) => rt.print(ListeningUdp { port }),
    };
}

/// Says what there was of datagrams, where there were such, and whether that was printed.
pub fn print_traffic(rt: &HostRuntime, handle: &impl Wait, access: &Access) -> bool {
    match access {
        Access::Streams(_) => true,
        Access::Datagrams(port) => rt.print(network_of(&port.traffic(handle))).is_ok(),
    }
}

/// What is told of the datagrams of a port.
fn network_of(traffic: &Traffic) -> Network
    ensures { result ≡ network_of traffic.now }
{
    Network {
        came: traffic.came,
        faulty: traffic.faulty,
        foreign: traffic.foreign,
        lost: traffic.gaps.lost,
        doubled: traffic.gaps.doubled,
        overtaken: traffic.gaps.overtaken,
        unsent: traffic.unsent,
    }
}
