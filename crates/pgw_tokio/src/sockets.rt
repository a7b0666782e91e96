//! A connection over TCP, by a configuration's limit of time.
ghost use Rattle.std.specs.Prelude.{◌≡◌, Ok, IfOk};
ghost use Rattle.pgw_tokio.specs.Connect.{ConnectNeeds, HandsOutSocket, IsLimitedBy};

use futures::task::{Context, Poll};
use futures::{Future, ready};
use pgw_config::config::Config;
use std::io;
use std::net::{Net, SocketAddr};
use std::time::{Clock, Duration};
use tokio::net::{ConnectFuture, TcpStream};
use tokio::runtime::Handle;
use tokio::time::Timeout;

/// A connection under way, with a limit of time or without one.
#[derive(Drop)]
pub enum Connecting {
    Unlimited(ConnectFuture),
    Limited(Timeout<ConnectFuture>),
}

/// Connects to a server. What takes longer than the configuration's `connect_timeout` fails as timed out.
///
/// The socket waits for nothing before it sends (TCP_NODELAY).
pub fn connect<R: Net + Clock>(
    rt: &R,
    handle: &Handle,
    addr: SocketAddr,
    config: &Config,
) -> io::Result<Connecting>
    ensures { IfOk result (IsLimitedBy config.now.connect_timeout) }
{
    let connecting = TcpStream::connect(rt, addr, handle.reactor());
    match config.get_connect_timeout() {
        None => Ok(Connecting::Unlimited(connecting)),
        Some(seconds) => {
            let limit = Duration::from_secs(seconds);
            Ok(Connecting::Limited(handle.time().timeout(rt, limit, connecting)?))
        }
    }
}

// The socket of a connection, once it waits for nothing before it sends.
fn at_once(connected: io::Result<TcpStream>) -> io::Result<TcpStream>
    ensures { IfOk result (λ stream. connected ≡ Ok stream) }
{
    let stream = connected?;
    stream.set_nodelay(true)?;
    Ok(stream)
}

impl Future for Connecting {
    type Output = io::Result<TcpStream>;

    ghost needs = { ConnectNeeds };

    ghost gives = { HandsOutSocket };

    fn poll(&mut self, cx: &mut Context<'_>) -> Poll<io::Result<TcpStream>> {
        match self {
            Connecting::Unlimited(connecting) => Poll::Ready(at_once(ready!(connecting.poll(cx)))),
            Connecting::Limited(timed) => match ready!(timed.poll(cx)) {
                Ok(connected) => Poll::Ready(at_once(connected)),
                Err(_elapsed) => Poll::Ready(Err(io::ErrorKind::TimedOut.into())),
            },
        }
    }
}
