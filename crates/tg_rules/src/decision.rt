//! Whether a command is served.
ghost use Rattle.std.specs.Prelude.{◌≡◌, ◌==◌, ◌||◌, Err, IfOk, Some};
ghost use Rattle.std.specs.Option.{option_or};
ghost use Rattle.std.specs.Result.{result_err};
ghost use Rattle.tg_rights.specs.RightSet.{RightSet};
ghost use Rattle.tg_model.specs.Rules.{unless_distinct, unless_held, unless_log, denial_of};
ghost use Rattle.tg_graph.specs.Heap.{IsActive, content_of};
ghost use Rattle.tg_rules.specs.Verdict.{denial_once_taken, verdict_of, HasSubject, HasVertex, IsVertexNamed, MayCheck};
ghost use Rattle.tg_rules.specs.Parties.{AreParties};

use crate::vertex::{Parties, Vertex, subject_of, vertex_of};
use tg_graph::Heap;
use tg_model::{Cause, Command, Denial, Rule};
use tg_payload::Payload;
use tg_rights::{Right, Rights};
use tg_subjects::Subject;

/// What is decided of a command.
#[derive(Clone, Copy, PartialEq, Eq, Debug)]
pub enum Verdict {
    /// It is served.
    Served,
    /// It is denied, for this reason, and is to change nothing.
    Denied(Denial),
}

/// Decides a command of a worker by the rules, on what the heap has. The denial is the first check that fails. The
/// order is distinctness, the right to use the rule, the rights that are taken or given, the law of what is appended
/// to. A name that no vertex has, or that was collected, is treated as one without an edge. Takes no memory.
pub fn decide<P: Payload>(heap: &Heap<P>, worker: u64, command: &Command) -> Verdict
    requires { IsActive heap.now worker }
    ensures { result ≡ verdict_of (denial_of (content_of heap.now).label (content_of heap.now).value worker command.now) }
{
    match find_parties(heap, subject_of(heap, worker), command) {
        Ok(_) => Verdict::Served,
        Err(denial) => Verdict::Denied(denial),
    }
}

/// Makes each check of a command of a subject that was looked up, as [`decide`] does. Returns the vertices that the
/// command is about, so that [`look_between`] and [`change_between`] needn't look them up again. Takes no memory.
///
/// [`look_between`]: crate::look_between
/// [`change_between`]: crate::change_between
#[inline(always)]
pub fn find_parties<P: Payload>(
    heap: &Heap<P>,
    subject: Subject,
    command: &Command,
) -> Result<Parties, Denial>
    requires { HasSubject heap.now subject }
    ensures denial { result_err result ≡ denial_of (content_of heap.now).label (content_of heap.now).value subject.name command.now }
    ensures found { IfOk result (AreParties heap.now subject.name command.now) }
{
    let worker = vertex_of(subject);
    match *command {
        Command::Take {
            via,
            target,
            rights,
        } => {
            check_distinct(Rule::Take, are_two_the_same(worker.name, via, target))?;
            let via = check_held(heap, Rule::Take, worker, via, Rights::of(Right::T))?;
            let target = check_held(heap, Rule::Take, via, target, rights.rights())?;
            Ok(Parties {
                from: worker,
                target,
            })
        }
        Command::Grant {
            via,
            target,
            rights,
        } => {
            check_distinct(Rule::Grant, are_two_the_same(worker.name, via, target))?;
            let receiver = check_held(heap, Rule::Grant, worker, via, Rights::of(Right::G))?;
            let target = check_held(heap, Rule::Grant, worker, target, rights.rights())?;
            Ok(Parties {
                from: receiver,
                target,
            })
        }
        Command::Remove { target, rights } => {
            check_use(heap, Rule::Remove, worker, target, rights.rights())
        }
        Command::Read { target } => {
            check_use(heap, Rule::Read, worker, target, Rights::of(Right::R))
        }
        Command::Write { target, .. } => {
            check_use(heap, Rule::Write, worker, target, Rights::of(Right::W))
        }
        Command::Append { target, .. } => {
            let parties = check_use(heap, Rule::Append, worker, target, Rights::of(Right::A))?;
            check_log(heap, Rule::Append, parties.target)?;
            Ok(parties)
        }
        Command::Inspect { target } => {
            let parties = check_use(heap, Rule::Inspect, worker, target, Rights::of(Right::L))?;
            Ok(Parties {
                from: parties.target,
                target: parties.target,
            })
        }
        Command::List | Command::Retire => Ok(Parties {
            from: worker,
            target: worker,
        }),
    }
}

/// Makes the checks of a grant that follows a take of the same rights, before anything is taken. The grant is to the
/// vertex with a name, over the target that the checks of the take met. The denial is that of the grant on the heap
/// after the take, whatever the rights are. The grant is denied exactly if two of the three vertices are one, or else
/// if the subject lacks grant over the vertex. So it is also denied like this on the heap as it is (`before`).
///
/// If there is no denial, it answers the vertices that the grant is about, for [`change_between`]. It changes nothing
/// and takes no memory. The rules are those of the take-grant model (Lipton and Snyder 1977).
///
/// [`change_between`]: crate::change_between
pub fn find_receiver<P: Payload>(
    heap: &Heap<P>,
    subject: Subject,
    to: u64,
    met: Parties,
) -> Result<Parties, Denial>
    requires subject { HasSubject heap.now subject }
    requires target { HasVertex heap.now met.target }
    ensures denial { (rights : RightSet) → result_err result ≡ denial_once_taken (content_of heap.now) subject.name to met.target.name rights }
    ensures before { (rights : RightSet) (denial : Denial) → result ≡ Err denial →
        denial_of (content_of heap.now).label (content_of heap.now).value subject.name (Command.Grant rights to met.target.name) ≡ Some denial }
    ensures found { (rights : RightSet) → IfOk result (AreParties heap.now subject.name (Command.Grant rights to met.target.name)) }
{
    check_distinct(
        Rule::Grant,
        are_two_the_same(subject.name, to, met.target.name),
    )?;
    let receiver = check_held(
        heap,
        Rule::Grant,
        vertex_of(subject),
        to,
        Rights::of(Right::G),
    )?;
    Ok(Parties {
        from: receiver,
        target: met.target,
    })
}

// The checks of a command that needs only rights of the worker over its target.
#[inline(always)]
fn check_use<P: Payload>(
    heap: &Heap<P>,
    rule: Rule,
    worker: Vertex,
    target: u64,
    rights: Rights,
) -> Result<Parties, Denial>
    requires checkable { MayCheck heap.now worker rights }
    ensures denial { result_err result ≡ option_or (unless_distinct rule (worker.name == target)) (unless_held (content_of heap.now).label rule worker.name target rights) }
    ensures from { IfOk result (λ parties. parties.from ≡ worker) }
    ensures target { IfOk result (λ parties. HasVertex heap.now parties.target × (parties.target.name ≡ target)) }
{
    check_distinct(rule, worker.name == target)?;
    let target = check_held(heap, rule, worker, target, rights)?;
    Ok(Parties {
        from: worker,
        target,
    })
}

// Whether two of the three vertices of a take or a grant are one.
#[inline(always)]
fn are_two_the_same(worker: u64, via: u64, target: u64) -> bool
    ensures { result ≡ ((worker == via) || (via == target) || (worker == target)) }
{
    worker == via || via == target || worker == target
}

// Denies a command two of whose vertices are one.
#[inline(always)]
fn check_distinct(rule: Rule, same: bool) -> Result<(), Denial>
    ensures { result_err result ≡ unless_distinct rule same }
{
    if same {
        return Err(Denial {
            rule,
            cause: Cause::NotDistinct,
        });
    }
    Ok(())
}

// Denies a command that needs rights of one vertex over another, if they are missing. Else it answers that other.
#[inline(always)]
fn check_held<P: Payload>(
    heap: &Heap<P>,
    rule: Rule,
    from: Vertex,
    to: u64,
    rights: Rights,
) -> Result<Vertex, Denial>
    requires checkable { MayCheck heap.now from rights }
    ensures denial { result_err result ≡ unless_held (content_of heap.now).label rule from.name to rights }
    ensures found { IfOk result (IsVertexNamed heap.now to) }
{
    match heap.find_edge(from.place, to) {
        Some(found) if found.rights.contains(rights) => Ok(Vertex {
            name: to,
            place: found.place,
        }),
        Some(found) => Err(missing(rule, from.name, to, rights.minus(found.rights))),
        None => Err(missing(rule, from.name, to, rights)),
    }
}

// Denies a command that needs a log, if the vertex stores no log.
#[inline(always)]
fn check_log<P: Payload>(heap: &Heap<P>, rule: Rule, target: Vertex) -> Result<(), Denial>
    requires { HasVertex heap.now target }
    ensures { result_err result ≡ unless_log rule ((content_of heap.now).value target.name) }
{
    if heap.law(target.place).is_log() {
        return Ok(());
    }
    Err(Denial {
        rule,
        cause: Cause::NotLog,
    })
}

// The denial for lack of these rights.
fn missing(rule: Rule, from: u64, to: u64, rights: Rights) -> Denial
    ensures { result ≡ record { rule = rule; cause = Cause.Missing rights from to } }
{
    Denial {
        rule,
        cause: Cause::Missing { from, to, rights },
    }
}
