//! An example of a program that embeds the store.
//!
//! A caretaker keeps a document, and hands the right to read it on to a visitor. The visitor reads the document, gives
//! the right back, and can't read the document any more. Then the caretaker gives up its own rights, and the document
//! is gone. Collections run in between, and no reply changes because of them. At the end the journal is audited
//! (`story`).
//!
//! `run_boxed` makes the payloads in boxes. All other code is generic in the payload.

mod story;

use crate::fault::StoryFault;
use story::{Boxes, run_story};
use tg_payload::{CellPayload, PayloadBox, SumPayload};

/// Makes the boxes, and runs the story with them. Each worker has a cell with 0. The document has a sum that begins
/// with 40.
pub fn run_boxed<R: Print + AllocGlobal>(rt: &R) -> Result<(), StoryFault> {
    let alloc = rt.alloc();
    let caretaker: PayloadBox = Box::new(alloc, CellPayload::new(0))?;
    let visitor: PayloadBox = Box::new(alloc, CellPayload::new(0))?;
    let document: PayloadBox = Box::new(alloc, SumPayload::new(40))?;
    let boxes = Boxes {
        caretaker,
        visitor,
        document,
    };
    run_story(rt, boxes)
}
