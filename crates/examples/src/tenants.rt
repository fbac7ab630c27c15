//! An example of two tenants of one store. Each pays for its commands out of a purse of its own.
//!
//! Together they may make two vertices and seven entries. One tenant has three of these entries, and the other four.
//! Each makes a document and writes to it three times. The first tenant can't pay for its last write. Its purse
//! refuses, and says what is used up. The other tenant goes on as if nothing had happened.

mod opening;
mod story;

pub use story::run_story;
