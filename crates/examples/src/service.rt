//! An example of a service whose clients come and go.
//!
//! The service spawns four clients and hands each of them a document. Three clients write at once, each on a thread of
//! its own. Meanwhile one client leaves. It gives up all that it has, and retires. The vertices over which it alone had
//! a right are gone then, although the service still has rights over the client. Its document keeps what the client
//! wrote.
//!
//! The fourth client hangs, and its session hangs with it. When the others are done, its document still stores 0. So
//! the keeper of the shared store ends the client. The client holds nothing any more, and the store is taken back
//! without its session.

mod client;
mod round;

pub use round::run_story;
