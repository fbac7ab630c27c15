//! The text of a snapshot, and the text of a value that a vertex stores.
//!
//! A snapshot is written line by line. The first line names the form of the text. Then come how many vertices were
//! made, the active subjects, the vertices with what they store, and the edges. The last line says how many vertices
//! and edges there are. `specs/Texts` defines the spelling of each line, and `specs/Values` that of a value.
//!
//! ```text
//!     kovshenul picture 1
//!     made 9 1000000 77          vertices ever made, the most that may be, entries ever made
//!     worker 2                   each active subject, by rising name
//!     worker 5
//!     vertex 2 c1                each vertex that subjects reach, by rising name, and what it stores
//!     vertex 5 m0
//!     vertex 7 l4:1,2
//!     edge 2 5 tg                each edge of these, by rising ends
//!     edge 5 7 rwa
//!     picture 5                  how many lines of vertices and edges
//! ```
//!
//! The text is a function of the snapshot (`snapshot_text`), and one graph has one snapshot at a place
//! (`one_graph_has_one_snapshot` of `tg_snapshot`). So two graphs can be compared by their texts, byte by byte.
//!
//! [`write_snapshot`] writes the text into a sink of `tg_text`, and [`snapshot_bytes`] into memory. [`read_snapshot`]
//! reads a text, and returns a snapshot only if the bytes are exactly its text. [`SnapshotStage`] does the same a line
//! at a time. The code that takes a line apart needs no trust. What is read is written again, and has to be equal to
//! the line. Each fault names its line, and says what would be right.
#![tactic(auto)]

mod fault;
mod line;
mod lines;
mod read;
mod stage;
mod text;
mod value;
mod write;

pub use fault::{SnapshotLineFault, SnapshotTextFault};
pub use line::write_edge;
pub use lines::ReadLines;
pub use read::{read_edge, read_numbers, read_value, text_of_line};
pub use stage::SnapshotStage;
pub use text::{read_snapshot, snapshot_bytes};
pub use value::{write_value, write_value_line};
pub use write::{SNAPSHOT_VERSION, write_edges, write_snapshot};
