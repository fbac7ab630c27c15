//! The functions that C calls. Each returns a status. It is 0 for done, 1 for denied, and 16 or more for refused
//! (`refusal`).
ghost use Rattle.std.specs.Prelude.{◌≡◌, false, true, Some, None};
ghost use Rattle.tg_model.specs.declared.command.Command.TheVariants as command;
ghost use Rattle.tg_space.specs.declared.kind.Kind.{Kind as KindOf};
ghost use Rattle.tg_c.specs.Calls.{Asks, AsksEntry, AsksFirst, AsksNames, AsksRights, AsksSubjects, AsksWithRights, Audits, Counts, CountsEntries, Forgets, MakesOfForms, Opens, Refuses, Sweeps};
ghost use Rattle.tg_c.specs.Forms.{kind_at};
ghost use Rattle.tg_c.specs.Statuses.{TellsCensus, TellsDone, TellsEntry, TellsInspect, TellsList, TellsNames, TellsNumber, TellsOnly, TellsRead, TellsRetired, status_of, entry_out, inspect_out, list_out, names_out, read_out};

use std::alloc::Global;
use tg_c::calls;
use tg_c::forms::{CensusOut, DenialOut, EdgeIn, EdgeOut, LimitsIn, ValueIn, kind_of, label_of};
use tg_c::held::Holder;
use tg_c::place::StorePlace;
use tg_c::records::RecordOut;
use tg_c::refusal::CallRefusal;
use tg_c::tell::{
    DONE, tell_census, tell_done, tell_inspect, tell_list, tell_number, tell_only, tell_read,
    tell_retired,
};
use tg_model::{Command, Making};

/// The number of this interface. It grows with each change that a program built against the older one would notice.
#[unsafe(no_mangle)]
pub extern "C" fn tg_abi() -> u32
    ensures { result ≡ 4 }
{
    4
}

/// Opens a store in the place, with a worker for each value, and the edges between the workers. `AlreadyOpen` is
/// returned exactly if the place is open. Then comes the first fault of the arguments, in the order of `calls::open`.
/// If the arguments have no fault, only memory can be refused. A refused place is as it was.
#[unsafe(no_mangle)]
pub extern "C" fn tg_open(
    alloc: Global,
    store: &mut StorePlace,
    workers: &[ValueIn],
    edges: &[EdgeIn],
    limits: &LimitsIn,
) -> u32
    ensures { Opens store.old store.new workers.now edges.now limits.now result }
{
    if store.is_open {
        return CallRefusal::AlreadyOpen.status();
    }
    match calls::open(alloc, workers, edges, limits) {
        Ok(opened) => {
            store.put(opened);
            DONE
        }
        Err(refusal) => refusal.status(),
    }
}

/// Gives back all memory of the store. The place is closed then, whether it was open or not.
#[unsafe(no_mangle)]
pub extern "C" fn tg_close(alloc: Global, store: &mut StorePlace) -> u32
    ensures closed { store.new.is_open ≡ false }
    ensures done { store.old.is_open ≡ true → result ≡ 0 }
    ensures not_open { store.old.is_open ≡ false → result ≡ status_of CallRefusal.NotOpen }
{
    match store.take(alloc) {
        Some(_opened) => DONE,
        None => CallRefusal::NotOpen.status(),
    }
}

/// The worker takes rights over the target that `via` has, by its own t over `via`.
#[unsafe(no_mangle)]
pub extern "C" fn tg_take(
    alloc: Global,
    store: &mut StorePlace,
    worker: u64,
    via: u64,
    target: u64,
    rights: u64,
    denial: &mut DenialOut,
) -> u32
    ensures asked { AsksWithRights store.old store.new worker rights (λ label. command.Take label via target) (TellsDone result denial.old denial.new) }
{
    match label_of(rights) {
        Ok(rights) => {
            let command = Command::Take {
                via,
                target,
                rights,
            };
            tell_done(calls::ask(alloc, store, worker, command), denial)
        }
        Err(refusal) => refusal.status(),
    }
}

/// The worker grants rights over the target to `via`, by its g over `via` and its own rights over the target.
#[unsafe(no_mangle)]
pub extern "C" fn tg_grant(
    alloc: Global,
    store: &mut StorePlace,
    worker: u64,
    via: u64,
    target: u64,
    rights: u64,
    denial: &mut DenialOut,
) -> u32
    ensures asked { AsksWithRights store.old store.new worker rights (λ label. command.Grant label via target) (TellsDone result denial.old denial.new) }
{
    match label_of(rights) {
        Ok(rights) => {
            let command = Command::Grant {
                via,
                target,
                rights,
            };
            tell_done(calls::ask(alloc, store, worker, command), denial)
        }
        Err(refusal) => refusal.status(),
    }
}

/// The worker gives up its own rights over the target.
#[unsafe(no_mangle)]
pub extern "C" fn tg_remove(
    alloc: Global,
    store: &mut StorePlace,
    worker: u64,
    target: u64,
    rights: u64,
    denial: &mut DenialOut,
) -> u32
    ensures asked { AsksWithRights store.old store.new worker rights (λ label. command.Remove label target) (TellsDone result denial.old denial.new) }
{
    match label_of(rights) {
        Ok(rights) => {
            let command = Command::Remove { target, rights };
            tell_done(calls::ask(alloc, store, worker, command), denial)
        }
        Err(refusal) => refusal.status(),
    }
}

/// The worker writes the value to the target, by its w over it. The target's law says which numbers are stored then.
#[unsafe(no_mangle)]
pub extern "C" fn tg_write(
    alloc: Global,
    store: &mut StorePlace,
    worker: u64,
    target: u64,
    value: u64,
    denial: &mut DenialOut,
) -> u32
    ensures { Asks store.old store.new worker (command.Write target value) (TellsDone result denial.old denial.new) }
{
    let command = Command::Write { target, value };
    tell_done(calls::ask(alloc, store, worker, command), denial)
}

/// The worker appends the value to the log that the target stores, by its a over it. The append is denied if the target
/// stores no log.
#[unsafe(no_mangle)]
pub extern "C" fn tg_append(
    alloc: Global,
    store: &mut StorePlace,
    worker: u64,
    target: u64,
    value: u64,
    denial: &mut DenialOut,
) -> u32
    ensures { Asks store.old store.new worker (command.Append target value) (TellsDone result denial.old denial.new) }
{
    let command = Command::Append { target, value };
    tell_done(calls::ask(alloc, store, worker, command), denial)
}

/// The worker makes a vertex, over which it has the rights. The new name goes to `name`.
#[unsafe(no_mangle)]
pub extern "C" fn tg_create(
    alloc: Global,
    store: &mut StorePlace,
    worker: u64,
    rights: u64,
    value: &ValueIn,
    name: &mut u64,
) -> u32
    ensures made { MakesOfForms Making.Object store.old store.new worker rights value.now (TellsNumber result name.old name.new) }
{
    tell_number(
        calls::make(alloc, store, worker, Making::Object, rights, *value),
        name,
    )
}

/// The worker makes a subject, over which it has the rights. The new name goes to `name`. The new subject is a worker
/// too.
#[unsafe(no_mangle)]
pub extern "C" fn tg_spawn(
    alloc: Global,
    store: &mut StorePlace,
    worker: u64,
    rights: u64,
    value: &ValueIn,
    name: &mut u64,
) -> u32
    ensures made { MakesOfForms Making.Subject store.old store.new worker rights value.now (TellsNumber result name.old name.new) }
{
    tell_number(
        calls::make(alloc, store, worker, Making::Subject, rights, *value),
        name,
    )
}

/// The worker retires, and is no subject afterwards. Its vertex, its edges and the numbers that it stores stay. A
/// retire is never denied.
#[unsafe(no_mangle)]
pub extern "C" fn tg_retire(alloc: Global, store: &mut StorePlace, worker: u64) -> u32
    ensures { Asks store.old store.new worker command.Retire (TellsRetired result) }
{
    tell_retired(calls::ask(alloc, store, worker, Command::Retire))
}

/// The names of the active subjects, rising. As many as there is room for go to `names`, and how many there are to
/// `count`.
#[unsafe(no_mangle)]
pub extern "C" fn tg_subjects(
    alloc: Global,
    store: &mut StorePlace,
    names: &mut [u64],
    count: &mut u64,
) -> u32
    ensures { AsksSubjects store.old store.new (TellsNames result
        (names_out count.old names.old)
        (names_out count.new names.new)) }
{
    tell_number(calls::subjects(alloc, store, names), count)
}

/// The worker reads the target, by its r over it. As many numbers as there is room for go to `numbers`, and how many
/// there are to `count`.
#[unsafe(no_mangle)]
pub extern "C" fn tg_read(
    alloc: Global,
    store: &mut StorePlace,
    worker: u64,
    target: u64,
    numbers: &mut [u64],
    count: &mut u64,
    denial: &mut DenialOut,
) -> u32
    ensures { Asks store.old store.new worker (command.Read target) (TellsRead result
        (read_out count.old numbers.old denial.old)
        (read_out count.new numbers.new denial.new)) }
{
    let answer = calls::ask(alloc, store, worker, Command::Read { target });
    tell_read(answer, numbers, count, denial)
}

/// The worker lists its edges, by rising name. As many as there is room for go to `edges`, and how many there are to
/// `count`. A list is never denied.
#[unsafe(no_mangle)]
pub extern "C" fn tg_list(
    alloc: Global,
    store: &mut StorePlace,
    worker: u64,
    edges: &mut [EdgeOut],
    count: &mut u64,
) -> u32
    ensures { Asks store.old store.new worker command.List (TellsList result
        (list_out count.old edges.old)
        (list_out count.new edges.new)) }
{
    let answer = calls::ask(alloc, store, worker, Command::List);
    tell_list(answer, edges, count)
}

/// The worker inspects the target by its l over it, and gets the target's edges by rising name. The first edges go to
/// `edges`, as many as there is room for. The number of all edges goes to `count`.
#[unsafe(no_mangle)]
pub extern "C" fn tg_inspect(
    alloc: Global,
    store: &mut StorePlace,
    worker: u64,
    target: u64,
    edges: &mut [EdgeOut],
    count: &mut u64,
    denial: &mut DenialOut,
) -> u32
    ensures { Asks store.old store.new worker (command.Inspect target) (TellsInspect result
        (inspect_out count.old edges.old denial.old)
        (inspect_out count.new edges.new denial.new)) }
{
    let answer = calls::ask(alloc, store, worker, Command::Inspect { target });
    tell_inspect(answer, edges, count, denial)
}

/// The rights of the worker over the target go to `rights` as bits. No rights are 0. The journal gets no entry.
#[unsafe(no_mangle)]
pub extern "C" fn tg_label(
    alloc: Global,
    store: &mut StorePlace,
    worker: u64,
    target: u64,
    rights: &mut u64,
) -> u32
    ensures { AsksRights store.old store.new worker target (TellsNumber result rights.old rights.new) }
{
    tell_number(calls::label(alloc, store, worker, target), rights)
}

/// Collects, by a full collection (0) or a nursery collection (1). The number of vertices that the heap then has goes
/// to `left`.
#[unsafe(no_mangle)]
pub extern "C" fn tg_collect(
    alloc: Global,
    store: &mut StorePlace,
    kind: u32,
    left: &mut u64,
) -> u32
    ensures collected { (asked : KindOf) → kind_at kind ≡ Some asked → Sweeps store.old store.new asked (TellsNumber result left.old left.new) }
    ensures bad_kind { kind_at kind ≡ None → Refuses store.old store.new (TellsNumber result left.old left.new) CallRefusal.BadKind }
{
    match kind_of(kind) {
        Some(kind) => tell_number(calls::collect(alloc, store, kind), left),
        None => CallRefusal::BadKind.status(),
    }
}

/// Counts the vertices, payloads and blocks of the heap, the entries, and the collections that were done.
#[unsafe(no_mangle)]
pub extern "C" fn tg_census(alloc: Global, store: &mut StorePlace, census: &mut CensusOut) -> u32
    ensures { Counts store.old store.new (TellsCensus result census.old census.new) }
{
    tell_census(calls::census(alloc, store), census)
}

/// Lists the names of the vertices that the heap has, each name once. The first names go to `names`, as many as there
/// is room for. The number of all names goes to `count`. The journal gets no entry.
#[unsafe(no_mangle)]
pub extern "C" fn tg_names(
    alloc: Global,
    store: &mut StorePlace,
    names: &mut [u64],
    count: &mut u64,
) -> u32
    ensures { AsksNames store.old store.new (TellsNames result
        (names_out count.old names.old)
        (names_out count.new names.new)) }
{
    tell_number(calls::names(alloc, store, names), count)
}

/// Counts the journal's entries.
#[unsafe(no_mangle)]
pub extern "C" fn tg_entries(alloc: Global, store: &mut StorePlace, count: &mut u64) -> u32
    ensures { CountsEntries store.old store.new (TellsNumber result count.old count.new) }
{
    tell_number(calls::entries(alloc, store), count)
}

/// The place of the first entry that the journal holds goes to `first`. If no entry is held, it is the place of the
/// next entry.
#[unsafe(no_mangle)]
pub extern "C" fn tg_first(alloc: Global, store: &mut StorePlace, first: &mut u64) -> u32
    ensures { AsksFirst store.old store.new (TellsNumber result first.old first.new) }
{
    tell_number(calls::first(alloc, store), first)
}

/// Reads the entry of the journal at this place, counted from 0, if the journal holds it. The record goes to `out`. The
/// first numbers and edges of the entry go to `numbers` and `edges`, as many as there is room for. Takes no memory.
#[unsafe(no_mangle)]
pub extern "C" fn tg_entry(
    alloc: Global,
    store: &mut StorePlace,
    at: u64,
    out: &mut RecordOut,
    numbers: &mut [u64],
    edges: &mut [EdgeOut],
) -> u32
    ensures { AsksEntry store.old store.new at (TellsEntry result
        (entry_out out.old numbers.old edges.old)
        (entry_out out.new numbers.new edges.new)) }
{
    calls::entry(alloc, store, at, out, numbers, edges)
}

/// Gives up the entries before this place. `BadPlace` is returned exactly if the store is open, and this place is
/// outside of the held part. The held part goes from the first entry that is held to the place of the next entry. Takes
/// no memory.
#[unsafe(no_mangle)]
pub extern "C" fn tg_forget(alloc: Global, store: &mut StorePlace, upto: u64) -> u32
    ensures { Forgets store.old store.new upto (TellsOnly result) }
{
    tell_only(calls::forget(alloc, store, upto))
}

/// Replays the journal from the opening on the plain graph, and counts its entries. `NotWhole` is returned exactly if
/// the place is open, and entries were given up or the store was opened again from a snapshot.
#[unsafe(no_mangle)]
pub extern "C" fn tg_audit(alloc: Global, store: &mut StorePlace, count: &mut u64) -> u32
    ensures { Audits store.old store.new (TellsNumber result count.old count.new) }
{
    tell_number(calls::audit_own(alloc, store), count)
}
