//! The calls that do the program's work, under one name: reading its words, answering frames, serving a store over a
//! socket. `read_line` and `memory` have contracts in their crates. `serve_store` has none; the rounds that it runs are
//! those of `um_serve::serve`, which has one.

pub use um_daemon::serve_store;
pub use um_line::read_line;
pub use um_memory::memory;
