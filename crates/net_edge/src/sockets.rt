//! Listeners, connections and stops over sockets.

mod address;
mod calls;
mod dial_socket;
mod dialer;
mod flow;
mod held;
mod idle;
mod listener;
mod net;
mod options;
mod pace;
mod peer;
mod pool;
mod queue;
mod refusal;
mod stop;
mod upstream;
mod waiting;
mod watched;

pub use dial_socket::DIAL_SECONDS;
pub use dialer::SocketDialer;
pub use flow::IDLE_SECONDS;
pub use listener::SocketListener;
pub use net::SocketNet;
pub use peer::SocketPeer;
pub use queue::QUEUE_LENGTH;
pub use refusal::Refusal;
pub use stop::SocketStop;
