//! Which of the sockets of an address have something to say.
use libc::net::{self, EPOLL_CTL_ADD, EPOLL_CTL_MOD, EPOLLIN, EPOLLONESHOT, EPOLLRDHUP};
use os::{EpollEvent, FromRawFd};
use std::io;
use std::os::fd::{AsRawFd, OwnedFd};

/// Sockets that are watched, each under a number, in one epoll set (epoll(7)). Threads share it.
///
/// Each socket is armed for one answer (`EPOLLONESHOT`): its number is told to one thread, and no
/// more until the socket is watched again. What happens while no thread waits is kept in the set
/// and told to the next one, so nothing is missed. A socket that is closed leaves the set by
/// itself.
#[derive(Drop)]
pub(crate) struct Watched {
    set: OwnedFd,
}

impl Watched {
    /// None so far.
    pub(crate) fn none() -> io::Result<Watched> {
        let descriptor = net::epoll_create1(net::EPOLL_CLOEXEC);
        if descriptor < 0 {
            return Err(io::Error::from_raw_os_error(os::errno()));
        }
        Ok(Watched {
            set: unsafe { OwnedFd::from_raw_fd(descriptor) },
        })
    }

    /// Watches a socket from now on, under this number alone. Whether it can.
    pub(crate) fn watch(&self, descriptor: i32, number: u64) -> bool {
        // A socket that was watched before is in the set still.
        self.control(EPOLL_CTL_MOD, descriptor, number)
            || self.control(EPOLL_CTL_ADD, descriptor, number)
    }

    /// Asks for the set to be changed, and says whether it was.
    fn control(&self, change: i32, descriptor: i32, number: u64) -> bool {
        let events = EPOLLIN | EPOLLRDHUP | EPOLLONESHOT;
        os::epoll_ctl(self.set.as_raw_fd(), change, descriptor, events, number) == 0
    }

    /// Waits until a socket has something to say, for at most so many milliseconds, and gives its
    /// number. A signal ends the wait early.
    pub(crate) fn wait(&self, milliseconds: i32) -> io::Result<Option<u64>> {
        let mut events = [EpollEvent { events: 0, data: 0 }; 1];
        if os::epoll_wait(self.set.as_raw_fd(), &mut events, milliseconds) == 1 {
            let EpollEvent { events: _, data } = events[0];
            return Ok(Some(data));
        }
        match os::errno() {
            0 | libc::EINTR => Ok(None),
            error => Err(io::Error::from_raw_os_error(error)),
        }
    }
}
