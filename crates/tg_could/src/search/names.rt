//! Numbers for the names of a picture. What is kept for each name is at its number. So it takes memory by what the
//! picture shows, and not by how many vertices were ever made. Of a number nothing has to be believed but that a name
//! has one.
ghost use Rattle.std.specs.Prelude.{◌≡◌, ◌+◌, ◌≤◌, length};
ghost use Rattle.tg_could.specs.Names.{halved, number_in, place_in};

use crate::search::growth::{copied, push};
use crate::view::words::word_of;
use std::alloc::{AllocError, Global};
use tg_model::Picture;

// So many times as many vertices as a picture has subjects and edges are numbered by their names.
const SPARSE: u64 = 4;

/// A number for each name.
pub(crate) enum Names {
    /// Each of so many names is its own number, because the picture shows a good part of them.
    Each(u64),
    /// The names that the picture shows, rising, whose numbers are their places. The second number says in how many
    /// halvings a name is found. All other names have the number after the last.
    Few(Vec<u64>, u32),
}

// It is written out, so that who gives them up doesn't prove again how each part is.
impl Drop for Names {
    fn drop(self) {
        match self {
            Names::Each(_) => {}
            Names::Few(_names, _) => {}
        }
    }
}

impl Names {
    /// Numbers for the names of a picture. Notes whether memory ran out.
    pub(crate) fn of(
        alloc: Global,
        picture: &Picture,
        grown: &mut Result<(), AllocError>,
    ) -> Names {
        let shown = (picture.edges().len() as u64).saturating_add(picture.subjects().len() as u64);
        if picture.made() / SPARSE <= shown {
            return Names::Each(picture.made());
        }
        let names = names_shown(alloc, picture, grown);
        let steps = 64_u32.saturating_sub((names.len() as u64).leading_zeros());
        Names::Few(names, steps)
    }

    /// The same numbers in memory of their own. Notes whether memory ran out.
    pub(crate) fn copy(&self, alloc: Global, grown: &mut Result<(), AllocError>) -> Names {
        match self {
            Names::Each(made) => Names::Each(*made),
            Names::Few(names, steps) => {
                Names::Few(copied(alloc, names.as_slice(), grown), *steps)
            }
        }
    }

    /// How many names have a number of their own.
    pub(crate) fn len(&self) -> usize {
        match self {
            Names::Each(made) => *made as usize,
            Names::Few(names, _) => names.len(),
        }
    }

    /// The number of a name.
    pub(crate) fn number(&self, name: u64) -> u64
        ensures { result ≡ number_in self.now name }
    {
        match self {
            Names::Each(_) => name,
            Names::Few(names, steps) => place_of(names.as_slice(), *steps, name),
        }
    }

    /// The name with a number.
    pub(crate) fn name(&self, number: u64) -> u64 {
        match self {
            Names::Each(_) => number,
            Names::Few(names, _) => word_of(names.as_slice(), number),
        }
    }
}

// The names of the subjects of a picture, and of both ends of its edges, each once, rising. No vertex has the last
// number. Notes whether memory ran out.
fn names_shown(alloc: Global, picture: &Picture, grown: &mut Result<(), AllocError>) -> Vec<u64> {
    let mut names = copied(alloc, picture.subjects(), grown);
    let mut last = u64::MAX;
    for edge in picture.edges() {
        if last != edge.from {
            push(&mut names, edge.from, grown);
            last = edge.from;
        }
        push(&mut names, edge.to, grown);
    }
    names.sort_unstable();
    names.dedup();
    copied(alloc, names.as_slice(), grown)
}

// The half of a part of a list in which a name is looked for: where it begins, and how long it is.
fn halve(names: &[u64], name: u64, part: (usize, usize)) -> (usize, usize)
    requires { part.0 + part.1 ≤ length names.now }
    ensures half { result ≡ halved names.now name part }
    ensures within { result.0 + result.1 ≤ length names.now }
{
    let half = part.1 / 2;
    let middle = part.0 + half;
    if word_of(names, middle as u64) <= name {
        (middle, part.1 - half)
    } else {
        (part.0, half)
    }
}

// The place of a name in a rising list, which so many halvings find. If the name isn't there, it is the length of the
// list.
fn place_of(names: &[u64], steps: u32, name: u64) -> u64
    ensures { result ≡ place_in names.now steps name }
{
    let mut part = (0, names.len());
    for step in 0..steps {
        part = halve(names, name, part);
    }
    let place = part.0 as u64;
    if word_of(names, place) == name {
        place
    } else {
        names.len() as u64
    }
}
