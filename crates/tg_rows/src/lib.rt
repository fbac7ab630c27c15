//! Rows of vertices in the cells of a heap. They have references, and long rows have indexes.
//!
//! A vertex is an object. An object is a cell with the vertex's name, the key of what it stores, and references. The
//! row of a vertex is its own cell and the chunks that its link leads to, one after the other:
//!
//! ```text
//!             word 0   1       2       3       4       5       6       7
//!   object       1     name    key     0       ref     ref     ref     link to the first chunk
//!   chunk        2     ref     ref     0       ref     ref     ref     link to the next chunk
//!   chunk        2     ref     0       0       0       0       0       0
//! ```
//!
//! Here word 3 of the first chunk is an empty place, which a reference left. A reference names the object of a vertex,
//! with at least one right over it. A row has at most one reference to each vertex. A new reference takes the first
//! empty place in chain order, or else the first place of a new chunk at the chain's end. A reference that loses its
//! last right becomes an empty place. Chunks stay linked.
//!
//! The *content* of cells is one definition. It has the names of the vertices, the labels between them, and their
//! values, read off the words. `Cells` holds the cells of all spaces, the table of payloads, and which cells of Old are
//! remembered. A call here reads one row, or changes it. It requires that the cells are those of a graph (`IsGraph`),
//! and says which content they have afterwards. Every heap of `tg_graph` has such cells.
//!
//! **Indexes.** A row of more than four cells has an index. It has the number of the place of each name, and the row's
//! cells in chain order. It exists once rights were put in such a row. It agrees with the words at all times, and every
//! call and every collection keeps it. A shorter row is searched cell by cell. Contracts see which names have an index.
//! 'Rows and their indexes' in docs/inside/ARCHITECTURE.md says what a collection makes of one.
//!
//! **Memory.** Growth comes first. A refused call leaves the cells and blocks as they were. It may leave room for one
//! more payload and for one more note.
//!
//! **Who may call.** Only `tg_graph` calls this crate. Its heap holds the cells together with the indexes of their
//! rows.
#![tactic(auto)]

mod cells;
mod deeds;
mod followed;
mod indexed_row;
mod indexes;
pub mod laws;
mod references;
mod row_cells;
mod rows;

pub use cells::{Cells, Found, Gift, NewVertex, VertexRefused};
pub use indexed_row::IndexedRow;
pub use indexes::LongRows;
pub use row_cells::RowCells;
pub use rows::{Spot, find_spot};
