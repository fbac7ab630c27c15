//! Scripts. They drive a store by lines of text.
//!
//! A script is a list of lines. The first lines are the edges between the opening's workers. Then come commands, each
//! of one subject, and collections. The bytes come from a [`Source`], and the replies go to a [`Sink`], one line each.
//! [`run_script_with`] runs a whole script. It reads a line, answers it and writes the reply before it reads the next
//! line. A [`Collector`] makes its collections. [`run_script_one`] is the run with [`OneThread`].
//! [`run_script_entries`] is the same run, and writes the text of its history in place of replies.
//! [`run_script_watched`] is either run, and shows each answer to a [`Watch`]. [`run_script_on`] is such a run on a
//! store that exists. [`ScriptRun`] runs a script part by part, and lends the store between the parts.
//!
//! `tg_text` has the spelling of lines and answers, and reads bytes. This crate exports what callers need of it. Its
//! other definitions to believe are in `specs/`. `Script` says what the answers to the lines are, and in which cases a
//! line may be refused instead. `Running` says what is then in the sink, and `Entering` says the same if entries are
//! written. Only this crate uses the other files of `specs/`.
//!
//! Nothing here waits or starts a thread. Only an edge line and the store take memory. Programs call
//! [`run_script_with`] with [`OfRead`] and [`OfWrite`]. In memory [`Bytes`] and [`Written`] take their place.
#![tactic(auto)]

mod collector;
mod drafts;
mod entering;
mod going;
mod helpers;
pub mod laws;
mod opening;
mod parts;
mod refusals;
mod run;
mod run_script;
mod script;
mod supply;
mod telling;
mod watch;
mod whole;

pub use collector::{Collector, OneThread};
pub use drafts::drafts_of;
pub use entering::run_script_entries;
pub use going::{RunOn, run_script_on};
pub use helpers::Helpers;
pub use opening::open_store;
pub use parts::{OpenedScript, ScriptLeft, ScriptRun, open_script};
pub use refusals::{apply_refusal, collect_refusal, create_answer, helpers_refusal};
pub use run_script::{
    InMemory, RunMeans, RunSetup, Settings, run_in_memory, run_script_one, run_script_watched,
    run_script_with,
};
pub use tg_parallel::MOST_HELPERS;
pub use tg_store::Limits;
pub use tg_text::{
    Answer, Bytes, Count, Line, MOST_BOXES, MOST_BYTES, MOST_LINE_BYTES, Next, OfRead, OfWrite,
    Put, Refusal, ScriptFault, Sink, Source, StockFault, StockItem, WriteFailed, Written,
    is_refusal, put_all, put_texts, read_line, read_stock, write_reply,
};
pub use watch::{NumberedLine, Unwatched, Watch};
pub use whole::{WholeScript, read_script};
