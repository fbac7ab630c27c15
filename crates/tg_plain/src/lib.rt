//! Runs the lines of a script on the plain graph of `tg_model`, without heap, journal and collection. Or replays the
//! text of a history.
//!
//! An [`InputText`] is what a program reads, which is a script or a history. It comes from standard input, or from a
//! kept file that the words of the command line name. `tg_found` reads the bytes of a kept file. [`last_picture`] is
//! the picture of the graph after a history.
//!
//! A [`Script`] has the lines of a reader up to the first fault in its bytes. It also has what they run on, which is
//! workers, a limit of vertices and a stock. It is read as `tgstore` reads it, in bounded memory. [`PlainRun::open`] is
//! the graph at the start, [`PlainRun::take`] runs one line, and [`PlainRun::of`] runs all lines. An [`Outcome`] is
//! what all of them leave. [`obey`] has a program do what its command line asks for. [`read_options`] reads what a
//! script runs on, which each program adds to its own options. A program prints into a [`PlainText`] first.
//! [`stock_reason`] and [`NumberOption`] say what is wrong with a value.
//!
//! The definitions to believe are in `specs/Lines`. They say which lines some bytes are (by `ReadsScript` of
//! `tg_text`). They also say which graph a line leaves, what its answer is, and how many boxes were taken.
//! `specs/Refused` says which answers mean that a line was denied or refused. `specs/Past` says where the
//! bytes come from, and what the text of a history leaves. `Inner` has definitions that only this
//! crate uses.
#![tactic(auto)]

mod bad_stock;
mod fault;
mod given;
mod heard;
mod input;
mod kept;
mod options;
mod outcome;
mod past;
mod program;
mod ranges;
mod reading;
mod refused;
mod run;
mod script;
mod text;

pub use bad_stock::{StockReason, stock_reason};
pub use fault::PlainFault;
pub use given::GivenOptions;
pub use input::InputText;
pub use options::{
    Choice, CommandLine, KEPT, PlainOptions, STOCK, VERTICES, WORKERS, read_options,
};
pub use outcome::Outcome;
pub use past::last_picture;
pub use program::{Program, obey};
pub use ranges::NumberOption;
pub use refused::RefusedLine;
pub use run::{PlainRun, value_of};
pub use script::{Script, ScriptLine};
pub use text::PlainText;
