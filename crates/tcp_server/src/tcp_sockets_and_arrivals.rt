//! Connections over TCP.

ghost use Rattle.std.specs.Prelude.{◌≡◌, Some, IfOk};
ghost use Rattle.hand_over.specs.ArrivalCounts.{came_after, kind_of};
ghost use Rattle.tcp_server.specs.ServerRanges.{IsTimeout};

use crate::client_limit::{Doorway, Seat};
use connections::{Watched, keep_alive};
use exit_lines::Line;
use hand_over::{Arrival, ArrivalKind, Arrivals};
use resp_wire::{Reading, Writing};
use std::alloc::{AllocError, Global};
use std::io::{self, ErrorKind, Read, Write};
use std::net::{TcpListener, TcpStream};
use std::os::fd::{AsRawFd, RawFd};
use std::sync::Arc;
use std::sync::atomic::{AtomicBool, Ordering};
use std::thread;
use std::time::Duration;

/// A client's socket, and the seat that it has for as long as it is open.
#[derive(Drop)]
struct Socket {
    stream: TcpStream,
    /// After how long in which no byte moves the connection is ended.
    silence: Option<Duration>,
    /// A call that would wait waits a moment before it answers so.
    waits: AtomicBool,
    _seat: Seat,
}

impl Socket {
    /// Has calls wait a moment, or no longer wait.
    fn set_waiting(&self, waits: bool) -> bool {
        if self.waits.load(Ordering::SeqCst) == waits {
            return true;
        }
        if self.stream.set_nonblocking(!waits).is_err() {
            return false;
        }
        self.waits.store(waits, Ordering::SeqCst);
        true
    }
}

/// One of the two holders of a socket. A call that would wait answers so.
#[derive(Drop)]
pub struct SocketHolder {
    socket: Arc<Socket, Global>,
}

impl Read for SocketHolder {
    fn read(&mut self, buffer: &mut [u8]) -> io::Result<usize> {
        let mut stream = &self.socket.stream;
        stream.read(buffer)
    }
}

impl Write for SocketHolder {
    fn write(&mut self, bytes: &[u8]) -> io::Result<usize> {
        let mut stream = &self.socket.stream;
        let taken = stream.write(bytes);
        // One wait is enough for a peer that does not take its replies: from then on no call waits.
        if !matches!(taken, Ok(n) if n == bytes.len()) {
            self.socket.set_waiting(false);
        }
        taken
    }

    fn flush(&mut self) -> io::Result<()> {
        let mut stream = &self.socket.stream;
        stream.flush()
    }
}

impl Watched for SocketHolder {
    fn descriptor(&self) -> Option<RawFd> {
        Some(self.socket.stream.as_raw_fd())
    }

    fn silence(&self) -> Option<Duration> {
        self.socket.silence
    }

    fn set_waiting(&self, waits: bool) -> bool {
        self.socket.set_waiting(waits)
    }
}

/// A connection: where its bytes come from, and where its replies go.
pub type TcpConnection = (Reading<SocketHolder>, Writing<SocketHolder>);

/// What an error of accepting says, by the system's number.
enum Refusal {
    /// No client waits.
    NobodyWaits,
    /// This client has gone, or can't be reached: the next one may be accepted.
    OneIsGone,
    /// There is no descriptor or no memory for a socket now.
    Want,
    /// The listener can't be used any more.
    Broken,
}

/// For how many milliseconds nobody is accepted once there was no descriptor or no memory for a socket.
const PAUSE_MILLIS: u64 = 100;

/// Linux's numbers for want of descriptors (for the system, for this process), of buffers and of
/// memory.
const WANTS: [i32; 4] = [23, 24, 105, 12];

/// Linux's numbers for errors of the network that are on their way to a socket that is accepted:
/// EPERM (a rule forbids it), ENONET, EPROTO, ENOPROTOOPT, EOPNOTSUPP, ENETDOWN, ENETUNREACH,
/// ECONNABORTED, ECONNRESET, ETIMEDOUT, EHOSTDOWN, EHOSTUNREACH.
const PASSING: [i32; 12] = [1, 64, 71, 92, 95, 100, 101, 103, 104, 110, 112, 113];

fn refusal_of(error: &io::Error) -> Refusal {
    if error.kind() == ErrorKind::WouldBlock {
        return Refusal::NobodyWaits;
    }
    match error.raw_os_error() {
        Some(number) if WANTS.contains(&number) => Refusal::Want,
        Some(number) if PASSING.contains(&number) => Refusal::OneIsGone,
        _ if error.kind() == ErrorKind::Interrupted => Refusal::OneIsGone,
        _ => Refusal::Broken,
    }
}

/// Where clients come in.
#[derive(Drop)]
struct Entrance {
    rt: HostRuntime,
    /// None once no more are accepted.
    listener: Option<TcpListener>,
    doorway: Doorway,
    /// After how long in which no byte moves a connection is ended.
    timeout: Option<Duration>,
}

/// For how many milliseconds a call waits where calls wait a moment.
const MOMENT_MILLIS: u64 = 1;

/// Sets a socket's options: no call waits, replies go out at once, and the system asks a silent peer
/// whether it is there. Once it is set to wait, a call waits for a moment.
fn set_options(stream: &TcpStream) -> io::Result<()> {
    stream.set_nonblocking(true)?;
    let moment = Some(Duration::from_millis(MOMENT_MILLIS));
    stream.set_read_timeout(moment)?;
    stream.set_write_timeout(moment)?;
    stream.set_nodelay(true)?;
    keep_alive(stream.as_raw_fd());
    Ok(())
}

impl Entrance {
    /// Both holders of a socket. None where the socket can't be used.
    fn connection(&self, stream: TcpStream) -> Result<Option<TcpConnection>, AllocError> {
        if set_options(&stream).is_err() {
            return Ok(None);
        }
        let socket = Socket {
            stream,
            silence: self.timeout,
            waits: AtomicBool::new(false),
            _seat: self.doorway.take_seat()?,
        };
        let source = Arc::new(self.rt.alloc(), socket)?;
        let drain = Arc::try_clone(&source)?;
        let source = SocketHolder { socket: source };
        let drain = SocketHolder { socket: drain };
        Ok(Some((Reading::new(source), Writing::new(drain))))
    }

    /// Waits a while, in which a descriptor or memory may become free.
    fn pause(&self) {
        thread::sleep(&self.rt, Duration::from_millis(PAUSE_MILLIS));
    }

    /// The next socket. None where the listener is broken or closed.
    fn accept(&mut self) -> Option<TcpStream> {
        for _ in 0..u64::MAX {
            self.doorway.await_seat();
            match self.listener.as_ref()?.accept() {
                Ok((stream, _peer)) => return Some(stream),
                Err(error) => match refusal_of(&error) {
                    Refusal::NobodyWaits => self.doorway.wait(),
                    Refusal::OneIsGone => {}
                    Refusal::Want => self.pause(),
                    Refusal::Broken => return None,
                },
            }
        }
        None
    }

    /// The next socket that can be used; one for which there is no memory is closed. None where accepting fails.
    fn next_connection(&mut self) -> Option<TcpConnection> {
        for _ in 0..u64::MAX {
            let stream = self.accept()?;
            match self.connection(stream) {
                Ok(Some(connection)) => return Some(connection),
                Ok(None) => {}
                Err(_) => self.pause(),
            }
        }
        None
    }
}

/// The connections of a listener. They never close.
#[derive(Drop)]
pub struct TcpArrivals {
    entrance: Entrance,
    came: u64,
    last: Option<ArrivalKind>,
}

impl TcpArrivals {
    /// The connections of a listener, so many at once: the next one is accepted once one has gone. One on which no byte
    /// moves for `timeout` seconds is ended; 0 is no timeout.
    ///
    /// # Errors
    ///
    /// The system gives nothing to wait by, or, as [`ErrorKind::OutOfMemory`], no memory. The listener is closed.
    pub fn new(
        rt: &HostRuntime,
        listener: TcpListener,
        max_clients: u64,
        timeout: u64,
    ) -> io::Result<Self>
        ensures { IfOk result (λ arrivals. IsTimeout timeout arrivals.entrance.timeout) }
    {
        listener.set_nonblocking(true)?;
        let doorway = Doorway::new(rt, rt.alloc(), listener.as_raw_fd(), max_clients)?;
        Ok(TcpArrivals {
            entrance: Entrance {
                rt: *rt,
                listener: Some(listener),
                doorway,
                timeout: (timeout > 0).then_some(Duration::from_secs(timeout)),
            },
            came: 0,
            last: None,
        })
    }
}

impl Arrivals for TcpArrivals {
    type Conn = TcpConnection;

    ghost came = { λ s. s.came };

    ghost last = { λ s. s.last };

    fn arrive(&mut self) -> Arrival<TcpConnection>
        ensures came { self.new.came ≡ came_after result self.old.came }
        ensures last { self.new.last ≡ Some (kind_of result) }
    {
        if self.came == u64::MAX {
            self.last = Some(ArrivalKind::End);
            return Arrival::Closed;
        }
        match self.entrance.next_connection() {
            Some(connection) => {
                self.came += 1;
                self.last = Some(ArrivalKind::Connection);
                Arrival::Came(connection)
            }
            None => {
                self.last = Some(ArrivalKind::Failure);
                Arrival::Fault
            }
        }
    }

    /// Closes the listener, so that new clients are refused, and tells at once where accepting
    /// failed.
    fn close(&mut self) {
        self.entrance.listener = None;
        if let Some(ArrivalKind::Failure) = self.last {
            let _ = eprintln!(self.entrance.rt; "{}", Line::AcceptFault);
        }
    }
}
