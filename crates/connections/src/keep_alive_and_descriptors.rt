//! What the system is asked of sockets and descriptors.

ghost use Rattle.libc.specs.Net.{SockOption};

use libc::types::rlimit;
use std::os::fd::RawFd;

/// Has the system ask a peer that is silent for long whether it is still there, as often and for as
/// long as the system is set to. False where that can't be had.
pub fn keep_alive(descriptor: RawFd) -> bool {
    let mut value = [0u8; 16];
    value[0] = 1;
    let status = unsafe {
        libc::net::setsockopt(
            descriptor,
            libc::net::SOL_SOCKET,
            libc::net::SO_KEEPALIVE,
            &value,
            4,
        )
    };
    status == 0
}

/// How many descriptors the process may have, where the system tells it.
pub fn descriptor_limit() -> Option<u64> {
    let mut limit = rlimit {
        rlim_cur: 0,
        rlim_max: 0,
    };
    if libc::getrlimit(libc::RLIMIT_NOFILE, &mut limit) != 0 {
        return None;
    }
    Some(limit.rlim_cur)
}
