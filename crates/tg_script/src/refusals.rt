//! How the faults of a store are reported in the reply. Each is a refusal with a text. `Refusals` of `specs/` has the
//! refusal of each fault. Nothing here knows how a store came to it.
ghost use Rattle.std.specs.Prelude.{◌≡◌};
ghost use Rattle.tg_script.specs.Refusals.{apply_refusal, create_answer, collect_refusal, helpers_refusal};

use tg_model::Reply;
use tg_parallel::HelpersFault;
use tg_store::{ApplyFault, CreateFault, RoomFault};
use tg_text::{Answer, Refusal};

/// Returns the refusal that is reported for a command that the store refused.
pub fn apply_refusal(fault: ApplyFault) -> Refusal
    ensures { result ≡ apply_refusal fault }
{
    match fault {
        ApplyFault::NoSuchWorker => Refusal::Worker,
        ApplyFault::OutOfMemory => Refusal::Memory,
        ApplyFault::HeapFull => Refusal::Heap,
    }
}

/// Returns the answer to a create or a spawn that made no vertex. If as many vertices were made as there may be, or if
/// as many subjects are active, the answer is a reply.
pub fn create_answer(fault: CreateFault) -> Answer
    ensures { result ≡ create_answer fault }
{
    match fault {
        CreateFault::NoSuchWorker => Answer::Refused(Refusal::Worker),
        CreateFault::VerticesFull => Answer::Reply(Reply::VerticesFull),
        CreateFault::WorkersFull => Answer::Reply(Reply::WorkersFull),
        CreateFault::OutOfMemory => Answer::Refused(Refusal::Memory),
        CreateFault::HeapFull => Answer::Refused(Refusal::Heap),
    }
}

/// Returns the refusal that is reported for a collection by one thread.
pub fn collect_refusal(fault: RoomFault) -> Refusal
    ensures { result ≡ collect_refusal fault }
{
    match fault {
        RoomFault::OutOfMemory => Refusal::Memory,
        RoomFault::HeapFull => Refusal::Heap,
    }
}

/// Returns the refusal that is reported for a collection by several helpers.
pub fn helpers_refusal(fault: HelpersFault) -> Refusal
    ensures { result ≡ helpers_refusal fault }
{
    match fault {
        HelpersFault::OutOfMemory => Refusal::Memory,
        HelpersFault::HeapFull => Refusal::Heap,
        HelpersFault::NoThread => Refusal::Threads,
    }
}
