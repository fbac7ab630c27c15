//! The calls on an auditor in its place, in Rattle's own types. Each takes the auditor out of its place, and puts it
//! back, as it does the store.
ghost use Rattle.std.specs.Prelude.{◌≡◌, IfOk, IfErr};
ghost use Rattle.tg_c.specs.Audits.{AsksPlace, Feeds, FeedsOpen, ForgetsAudited, IsOpenedAudit, Sweeps};
ghost use Rattle.tg_c.specs.Calls.{IsRefusedFor};

use crate::auditor::audit::Audit;
use crate::auditor::place::AuditorPlace;
use crate::calls::forget;
use crate::forms::{EdgeIn, LimitsIn, ValueIn};
use crate::held::Holder;
use crate::opening::asked_for;
use crate::place::StorePlace;
use crate::refusal::CallRefusal;
use std::alloc::Global;
use tg_journal::Auditor;

/// Opens an audit, which no place has yet, of a store that is opened by the same arguments. The arguments are checked
/// as `crate::calls::open` checks them.
pub fn open(
    alloc: Global,
    workers: &[ValueIn],
    edges: &[EdgeIn],
    limits: &LimitsIn,
) -> Result<Box<Audit>, CallRefusal>
    ensures opened { IfOk result (λ opened. IsOpenedAudit opened.value workers.now edges.now limits.now) }
    ensures refused { IfErr result (IsRefusedFor workers.now edges.now limits.now) }
{
    let opening = asked_for(alloc, workers, edges, limits)?.opening;
    let auditor = Auditor::open(alloc, &opening)?;
    Ok(Box::new(alloc, Audit { auditor })?)
}

/// Feeds the auditor the entries that the store holds from the auditor's place on. Returns how many entries passed by
/// then in all.
pub fn feed(
    alloc: Global,
    auditor: &mut AuditorPlace,
    store: &mut StorePlace,
) -> Result<u64, CallRefusal>
    ensures { Feeds auditor.old auditor.new store.old store.new (λ told. result ≡ told) }
{
    let Some(mut audit) = auditor.take(alloc) else {
        return Err(CallRefusal::NotOpen);
    };
    let passed = feed_from(alloc, &mut audit, store);
    auditor.put(audit);
    passed
}

// Feeds an audit the entries that the store in the place holds.
fn feed_from(alloc: Global, audit: &mut Audit, place: &mut StorePlace) -> Result<u64, CallRefusal>
    ensures { FeedsOpen audit.old audit.new place.old place.new (λ told. result ≡ told) }
{
    let Some(opened) = place.take(alloc) else {
        return Err(CallRefusal::NotOpen);
    };
    let passed = audit.feed(opened.store.journal());
    place.put(opened);
    passed
}

/// How many entries passed, which is the place of the next entry.
pub fn at(alloc: Global, auditor: &mut AuditorPlace) -> Result<u64, CallRefusal>
    ensures { AsksPlace auditor.old auditor.new (λ told. result ≡ told) }
{
    auditor.with_open(alloc, |audit| audit.auditor.at())
}

/// Forgets the vertices that no worker reaches any more in the graph that the auditor has come to.
pub fn sweep(alloc: Global, auditor: &mut AuditorPlace) -> Result<(), CallRefusal>
    ensures { Sweeps auditor.old auditor.new (λ told. result ≡ told) }
{
    auditor.with_open(alloc, |audit| audit.sweep())?
}

/// Gives up the store's entries before a place, if the auditor has come as far.
pub fn forget_audited(
    alloc: Global,
    auditor: &mut AuditorPlace,
    store: &mut StorePlace,
    upto: u64,
) -> Result<(), CallRefusal>
    ensures { ForgetsAudited auditor.old auditor.new store.old store.new upto (λ told. result ≡ told) }
{
    if at(alloc, auditor)? < upto {
        return Err(CallRefusal::NotAudited);
    }
    forget(alloc, store, upto)
}
