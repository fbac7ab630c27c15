//! The vertices of a snapshot.
use tg_model::Value;

/// A vertex with what it stores.
#[derive(Debug, Drop)]
pub struct ShownVertex {
    pub name: u64,
    pub value: Value,
}
