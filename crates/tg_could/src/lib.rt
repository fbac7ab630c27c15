//! Could x ever come to hold a right over y, by any turns of those whom one doesn't trust?
//!
//! A reference monitor says what is allowed now. A host asks another question before each grant. For example, could
//! this plug-in ever come to write that document? [`could_hold`] answers a [`Question`] about a [`Scene`]. The scene
//! has the picture of a graph of `tg_model`, which has the active subjects, the edges, the number of vertices made, and
//! their limit. It also has the names of the silent subjects, who take no turns. A host names whom it trusts, itself
//! first. All other active subjects act, and so does every subject that is spawned later.
//!
//! [`could_hold`] has four answers. [`could_hold_reached`] adds `Unreached`, and a [`View`] answers `Perhaps` where it
//! doesn't answer `Never`:
//!
//! - `Never`. No list of turns of those who act gives x the right over y, whatever they create or give up, and whoever
//!   of them retires. A [`Separation`] comes with the answer. [`Separation::parts`] checks it in one pass over the
//!   edges, so a host may keep it and check it again after changes.
//! - `Could`. The turns in the answer give x the right. There are none if x holds it already. [`lead_there`] replays
//!   turns of any subjects.
//! - `WantsNames`. The turns in the answer give x the right if so many more vertices may be made than are left.
//! - `Open`. Nothing is known, because the question names a vertex far ahead of those made. Tests show that only such a
//!   name leads to this answer. If there were another, its meaning would be that turns exist, and that they are not
//!   listed.
//!
//! [`who_could`] lists who could come to hold a right, and [`what_could`] over what, by one search each. For a vertex
//! that they don't list, the answer is `Never`. [`needs`] lists subjects whose turns would be enough. A [`View`] is
//! made once of a picture. It then answers each question in the time that the edges to y take.
//!
//! A host asks about a grant before it makes it, on the picture with the new edge (`Picture::with`). The picture of a
//! store has what its active subjects reach. [`could_hold_reached`] asks about such a picture with the supposed edges.
//! If nobody reaches x, the answer is `Unreached`. Every other answer is that of the whole graph.
//!
//! The definitions to believe are in `specs/`. `Turns` defines turns, `NeverHolds` and `LeadThere`. `Answered` says
//! what an answer promises. `Scenes` and `Reached` define the scene of a question. Of `Separation`, `Led`, `Told`,
//! `Listed` and `View` a reader needs only what a law or a later call says about them. The theorem is that of Jones,
//! Lipton and Snyder ("A linear time algorithm for deciding security", 1976). For subjects it is that of Lipton and
//! Snyder ("A linear time algorithm for deciding subject security", Journal of the ACM 24(3), 1977). The search
//! (`search`) and the turns that it finds (`plan`) promise nothing, because the result is checked. [`laws`] has what
//! follows from the definitions alone.
//!
//! Each phase has a folder: `search`, `separation`, `witness` and `view`.
#![tactic(auto)]

mod answer;
mod chance;
mod enough;
mod later;
pub mod laws;
mod policy;
mod question;
mod reached;
mod search;
mod separation;
mod view;
mod what;
mod who;
mod witness;

pub use answer::{Answer, AnswerKind, could_hold, could_hold_kind};
pub use chance::Chance;
pub use enough::needs;
pub use policy::{Breach, first_breach};
pub use question::{Question, Scene, Witness};
pub use reached::{ReachedAnswer, could_hold_reached, is_reached, join_reached, supposing};
pub use separation::Separation;
pub use view::View;
pub use what::{What, what_could};
pub use who::{Who, who_could};
pub use witness::lead_there;
