//! Tests of the store, of its sessions, of stores that are resumed, of scripts and races in memory, and of the payloads
//! that these use. A few answers of `tg_could` are tested too, which no clause promises.
//!
//! Tests have crates of their own, because a crate with tests is proved twice. They are one crate, because each check
//! of a crate reads all libraries below it. Each file has one topic, and the name of a test says what it shows. Only
//! the gate runs this crate. The replies to a whole script are a row of `tests/runs/`, which runs the program.
#![tactic(auto)]

#[cfg(test)]
mod by_law;
#[cfg(test)]
mod could;
#[cfg(test)]
mod files;
#[cfg(test)]
mod helpers;
#[cfg(test)]
mod meet;
#[cfg(test)]
mod opened;
#[cfg(test)]
mod payloads;
#[cfg(test)]
mod reopened;
#[cfg(test)]
mod resumed;
#[cfg(test)]
mod runs;
#[cfg(test)]
mod sessions;
#[cfg(test)]
mod shown;
#[cfg(test)]
mod stores;
#[cfg(test)]
mod tagged;
