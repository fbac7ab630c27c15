//! The journal's entries for C. An entry is a struct of numbers, with its lists beside it.
ghost use Rattle.std.specs.Prelude.{◌≡◌, ◌↔◌, IsTrue};
ghost use Rattle.tg_c.specs.Records.{answered as answered_told, asked as asked_told, command_out as command_told, deed_out as deed_told, making_out as making_told, edges_entered as edges_told, law_out as law_told, numbers_entered as numbers_told, record_of, reply_out as reply_told};
ghost use Rattle.tg_model.specs.declared.reply.Reply.TheVariants.{Done};
ghost use Rattle.tg_c.specs.Records.{numbers_replied};
ghost use Rattle.tg_c.specs.Could.{turn_out as turn_told};

use crate::forms::{DenialOut, denial_out, rights_out, verb_number};
use tg_journal::Entry;
use tg_model::{Arguments, Command, Deed, Law, Reply};
use tg_rights::Label;

/// An entry of the journal. A field that its deed and its reply don't have is 0. 112 bytes.
#[repr(C)]
#[derive(Clone, Copy, PartialEq, Eq, Drop)]
pub struct RecordOut {
    /// The worker that asked.
    pub worker: u64,
    /// The number of the deed. A command has its `verb_number`, a create has 16, and a spawn has 17.
    pub deed: u32,
    /// The kind of the reply:
    ///
    /// | Number | Reply |
    /// |---|---|
    /// | 0 | done |
    /// | 1 | denied |
    /// | 2 | a name |
    /// | 3 | values |
    /// | 4 | edges |
    /// | 16 | no more vertices may be made |
    /// | 17 | no more subjects may be active |
    pub reply: u32,
    /// The law of a create or a spawn, as in `ValueIn`. It says what a write does.
    pub law: u32,
    /// How many numbers a log keeps that a create or a spawn makes.
    pub most: u32,
    /// The vertex from which a take takes the rights, or to which a grant grants them.
    pub via: u64,
    /// The vertex that the command was about. A list, a retire, a create and a spawn have none.
    pub target: u64,
    /// The rights of a take, grant, remove, create or spawn, as bits.
    pub rights: u64,
    /// The number that was written or appended.
    pub value: u64,
    /// The name of the vertex that was made.
    pub name: u64,
    /// Why the command was denied.
    pub denial: DenialOut,
    /// How many numbers the entry has. A create or a spawn has the numbers that the vertex stored at first. A read has
    /// the numbers that were read.
    pub number_count: u64,
    /// How many edges were listed.
    pub edge_count: u64,
}

impl RecordOut {
    /// Whether two records have the same numbers.
    pub fn same(&self, other: &RecordOut) -> bool
        ensures { IsTrue result ↔ (self.now ≡ other.now) }
    {
        *self == *other
    }
}

// A deed in numbers.
#[derive(Clone, Copy, Drop)]
struct DeedOut {
    kind: u32,
    law: u32,
    most: u32,
    via: u64,
    target: u64,
    rights: u64,
    value: u64,
}

// A reply in numbers.
#[derive(Clone, Copy, Drop)]
struct ReplyOut {
    kind: u32,
    name: u64,
    denial: DenialOut,
}

/// The entry, for C.
pub fn record_out(entry: &Entry) -> RecordOut
    ensures { result ≡ record_of entry.now }
{
    let deed = deed_out(&entry.deed);
    let reply = reply_out(&entry.reply);
    RecordOut {
        worker: entry.worker,
        deed: deed.kind,
        reply: reply.kind,
        law: deed.law,
        most: deed.most,
        via: deed.via,
        target: deed.target,
        rights: deed.rights,
        value: deed.value,
        name: reply.name,
        denial: reply.denial,
        number_count: numbers_of(entry).len() as u64,
        edge_count: edges_of(entry).len() as u64,
    }
}

/// The numbers of an entry. A create or a spawn has the numbers that the vertex stored at first. A read has the numbers
/// that were read.
pub fn numbers_of(entry: &Entry) -> &[u64]
    ensures { result.now ≡ numbers_told entry.now }
{
    match (&entry.deed, &entry.reply) {
        (Deed::Create { state, .. } | Deed::Spawn { state, .. }, _) => state.as_slice(),
        (_, Reply::Values(values)) => values.as_slice(),
        _ => &[],
    }
}

/// The edges of an entry, which were listed.
pub fn edges_of(entry: &Entry) -> &[(u64, Label)]
    ensures { result.now ≡ edges_told entry.now }
{
    match &entry.reply {
        Reply::Edges(edges) => edges.as_slice(),
        _ => &[],
    }
}

// The fields of a deed.
fn deed_out(deed: &Deed) -> DeedOut
    ensures { result ≡ deed_told deed.now }
{
    match deed {
        Deed::Create { label, law, .. } => made(16, *label, *law),
        Deed::Spawn { label, law, .. } => made(17, *label, *law),
        Deed::Plain(command) => command_out(*command),
    }
}

// The making of a vertex, an object or a subject.
fn made(kind: u32, label: Label, law: Law) -> DeedOut
    ensures { result ≡ making_told kind label law }
{
    let (law, most) = law_out(law);
    DeedOut {
        kind,
        law,
        most,
        via: 0,
        target: 0,
        rights: rights_out(Some(label)),
        value: 0,
    }
}

// The fields of a command.
fn command_out(command: Command) -> DeedOut
    ensures { result ≡ command_told command }
{
    let (verb, arguments) = command.parts();
    let kind = verb_number(verb);
    match arguments {
        Arguments::Bare => asked(kind, 0, 0, 0, 0),
        Arguments::Target { target } => asked(kind, 0, target, 0, 0),
        Arguments::Value { target, value } => asked(kind, 0, target, 0, value),
        Arguments::Rights { target, rights } => {
            asked(kind, 0, target, rights_out(Some(rights)), 0)
        }
        Arguments::Move {
            via,
            target,
            rights,
        } => asked(kind, via, target, rights_out(Some(rights)), 0),
    }
}

// A command, which has no law.
fn asked(kind: u32, via: u64, target: u64, rights: u64, value: u64) -> DeedOut
    ensures { result ≡ asked_told kind via target rights value }
{
    DeedOut {
        kind,
        law: 0,
        most: 0,
        via,
        target,
        rights,
        value,
    }
}

/// The number of a law, and how many numbers are kept, of a log alone.
pub fn law_out(law: Law) -> (u32, u32)
    ensures { result ≡ law_told law }
{
    match law {
        Law::Cell => (0, 0),
        Law::Sum => (1, 0),
        Law::Max => (2, 0),
        Law::Log(most) => (3, most),
    }
}

// The fields of a reply.
fn reply_out(reply: &Reply) -> ReplyOut
    ensures { result ≡ reply_told reply.now }
{
    match reply {
        Reply::Done => answered(0, 0),
        Reply::Denied(why) => ReplyOut {
            kind: 1,
            name: 0,
            denial: denial_out(why),
        },
        Reply::Name(name) => answered(2, *name),
        Reply::Values(_) => answered(3, 0),
        Reply::Edges(_) => answered(4, 0),
        Reply::VerticesFull => answered(16, 0),
        Reply::WorkersFull => answered(17, 0),
    }
}

// A reply, which is no denial.
fn answered(kind: u32, name: u64) -> ReplyOut
    ensures { result ≡ answered_told kind name }
{
    let denial = DenialOut {
        rule: 0,
        cause: 0,
        from: 0,
        to: 0,
        rights: 0,
    };
    ReplyOut { kind, name, denial }
}

/// The turn of an answer as a record for C, which has no reply.
pub fn turn_out(turn: &(u64, Deed)) -> RecordOut
    ensures { result ≡ turn_told turn.now }
{
    let deed = deed_out(&turn.1);
    let reply = answered(0, 0);
    RecordOut {
        worker: turn.0,
        deed: deed.kind,
        reply: reply.kind,
        law: deed.law,
        most: deed.most,
        via: deed.via,
        target: deed.target,
        rights: deed.rights,
        value: deed.value,
        name: reply.name,
        denial: reply.denial,
        number_count: numbers_of_turn(turn).len() as u64,
        edge_count: 0,
    }
}

/// The numbers of a turn. A create or a spawn has the numbers that the vertex is to store at first.
pub fn numbers_of_turn(turn: &(u64, Deed)) -> &[u64]
    ensures { result.now ≡ numbers_replied turn.now.1 Done }
{
    match &turn.1 {
        Deed::Create { state, .. } | Deed::Spawn { state, .. } => state.as_slice(),
        Deed::Plain(_) => &[],
    }
}
