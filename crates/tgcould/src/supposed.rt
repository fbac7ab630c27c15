//! The suppositions of the options. Some vertices take no turns, and some edges are asked about as if they were there.
ghost use Rattle.std.specs.Prelude.{◌≡◌, ◌≢◌, ◌++◌, codes, IfOk, IfSome};
ghost use Rattle.std.specs.List.{AllZip};
ghost use Rattle.tg_text.specs.declared.line.Line.{Line as TheLine};
ghost use Rattle.tg_text.specs.Grammar.{line_text};
ghost use Rattle.tgcould.specs.Policies.{WritesWord, texts_of};
ghost use Rattle.tgcould.specs.Supposed.{AreEdges, AreNameTexts, IsSupposed, Supposes, WritesEdge};

use crate::checks::refuse;
use crate::options::{AS_IF, SILENT};
use clap::ArgMatches;
use std::alloc::{AllocError, Global};
use tg_model::{Edge, Picture};
use tg_text::{Line, read_line, reason_of};

// The most workers there are, so that each edge between two of them is one of the grammar.
const ANY: u64 = u64::MAX;

const NO_NAME: &str = "a vertex is wanted by its name, a number from 0 to 18446744073709551615";

/// The suppositions of the options.
#[derive(Drop)]
pub struct Supposed {
    /// Who takes no turns.
    pub silent: Vec<u64>,
    /// The edges that are asked about as if they were there.
    pub edges: Vec<Edge>,
}

impl Supposed {
    /// The suppositions that all values of the two options write. `None` if a value is no edge or no name, which is
    /// then reported on standard error. Fails only when out of memory.
    pub fn read<R: Eprint>(
        rt: &R,
        alloc: Global,
        matches: &ArgMatches,
    ) -> Result<Option<Supposed>, AllocError>
        ensures { IfOk result (λ read. IfSome read (IsSupposed matches.now)) }
    {
        let Some(edges) = edges_of(rt, alloc, matches)? else {
            return Ok(None);
        };
        match silent_of(rt, alloc, matches)? {
            Some(silent) => Ok(Some(Supposed { silent, edges })),
            None => Ok(None),
        }
    }
}

// The vertices that take no turns. All values of the option name them.
fn silent_of<R: Eprint>(
    rt: &R,
    alloc: Global,
    matches: &ArgMatches,
) -> Result<Option<Vec<u64>>, AllocError>
    ensures { IfOk result (λ read. IfSome read (λ names. AreNameTexts (texts_of matches.now SILENT.now) names.items)) }
{
    read_names(rt, alloc, matches.get_strs(SILENT).unwrap_or(&[]))
}

// The names that these texts write, in their order. `None` where one writes none.
fn read_names<R: Eprint>(
    rt: &R,
    alloc: Global,
    texts: &[&str],
) -> Result<Option<Vec<u64>>, AllocError>
    ensures { IfOk result (λ read. IfSome read (λ names. AllZip (λ text name. WritesWord text.now name) texts.now names.items)) }
{
    let mut names = Vec::new(alloc);
    for text in texts {
        let Ok(name) = text.parse::<u64>() else {
            refuse(rt, SILENT, text, NO_NAME);
            return Ok(None);
        };
        names.push(name)?;
    }
    Ok(Some(names))
}

// The edges that all values of the option write.
fn edges_of<R: Eprint>(
    rt: &R,
    alloc: Global,
    matches: &ArgMatches,
) -> Result<Option<Vec<Edge>>, AllocError>
    ensures { IfOk result (λ read. IfSome read (λ edges. AreEdges (texts_of matches.now AS_IF.now) edges.items)) }
{
    read_edges(rt, alloc, matches.get_strs(AS_IF).unwrap_or(&[]))
}

// The edges that these texts write, in their order. `None` where one writes none.
fn read_edges<R: Eprint>(
    rt: &R,
    alloc: Global,
    texts: &[&str],
) -> Result<Option<Vec<Edge>>, AllocError>
    ensures { IfOk result (λ read. IfSome read (λ edges. AllZip (λ text edge. WritesEdge text.now edge) texts.now edges.items)) }
{
    let mut edges = Vec::new(alloc);
    for text in texts {
        match read_edge(alloc, text) {
            Ok(Ok(edge)) => edges.push(edge)?,
            Ok(Err(reason)) => {
                refuse(rt, AS_IF, text, reason);
                return Ok(None);
            }
            Err(error) => return Err(error),
        }
    }
    Ok(Some(edges))
}

// The edge that the text writes. If it writes none, the reason is one sentence without its dot. Fails only when out of
// memory.
fn read_edge(alloc: Global, text: &str) -> Result<Result<Edge, &'static str>, AllocError>
    ensures { IfOk result (λ read. IfOk read (WritesEdge text.now)) }
{
    let mut line = String::new(alloc);
    line.push_str("edge ")?;
    line.push_str(text)?;
    Ok(edge_of(line.as_bytes()))
}

// The edge that the line is, or why it is none.
fn edge_of(line: &[u8]) -> Result<Edge, &'static str>
    ensures is { IfOk result (λ edge. line.now ≡ line_text (TheLine.Edge edge)) }
    ensures differ { IfOk result (λ edge. edge.from ≢ edge.to) }
{
    match read_line(line) {
        Some(Line::Edge(edge)) if edge.from != edge.to => Ok(edge),
        Some(_) => Err("an edge joins two different vertices"),
        None => Err(reason_of(line, true, ANY)),
    }
}

/// The picture with these edges too. Fails only when out of memory, and the picture is dropped then.
pub fn suppose(picture: Picture, edges: &[Edge]) -> Result<Picture, AllocError>
    ensures { IfOk result (Supposes picture edges.now) }
{
    let mut supposed = picture;
    for edge in edges {
        supposed = supposed.with(edge.from, edge.to, edge.label)?;
    }
    Ok(supposed)
}
