//! The run of a whole script that writes entries in the place of replies.
ghost use Rattle.std.specs.Prelude.{◌≡◌, [], true, OnOk};
ghost use Rattle.tg_script.specs.Entering.{EntersFrom};
ghost use Rattle.tg_script.specs.Inner.Beginning.{MayGoOn};
ghost use Rattle.tg_script.specs.Inner.Marks.{SeesEntered};
ghost use Rattle.tg_script.specs.Inner.Telling.{EntersCommands, UsesStreams};
ghost use Rattle.tg_script.specs.Running.{FinishesSink};
ghost use Rattle.tg_script.specs.Script.{MayRun, start_of_setup};
ghost use Rattle.tg_script.specs.Watching.{SeesFrom};

use crate::collector::Collector;
use crate::run_script::{Begun, RunMeans, RunSetup, begin, finish, run_commands};
use crate::telling::ByEntry;
use crate::watch::{Unwatched, Watch};
use std::alloc::Global;
use tg_entries::{write_end, write_opening};
use tg_payload::Payload;
use tg_text::{ScriptFault, Sink, Source};

/// Runs the script as [`run_script_with`](crate::run_script_with) does, and writes the text of its history in the place
/// of replies. The form of the text is that of `tg_entries`. The lines of the opening come once the store is open. The
/// line of each entry is written before the next line is run. The number of entries comes at the end. A collection has
/// no entry, and neither has a line that is refused.
///
/// Each line is answered as by `run_script_with`, with the same faults. After a fault no number is written. The text is
/// then that of the lines before the fault, and after `WriteFailed` a front of it. So `Ok` is returned only if the text
/// is that of a legal history, as `audit_text` of `tg_entries` finds it. Each entry is given up once it was written.
pub fn run_script_entries<P: Payload, C: Collector, S: Source, K: Sink>(
    alloc: Global,
    collector: &C,
    source: &mut S,
    sink: &mut K,
    setup: RunSetup<P>,
) -> Result<(), ScriptFault>
    requires runnable { MayRun C.Ready setup.settings setup.workers.items }
    ensures entered { EntersFrom S.left S.asked S.failures K.taken source.old source.new sink.old sink.new (start_of_setup setup) result }
    ensures finish { FinishesSink K.failures K.finished sink.old sink.new result }
{
    let means = RunMeans {
        alloc,
        collector,
        entries: true,
    };
    run_entries(means, source, sink, &mut Unwatched, setup)
}

/// Runs the script and writes entries.
#[inline(always)]
pub(crate) fn run_entries<P: Payload, C: Collector, S: Source, K: Sink, W: Watch>(
    means: RunMeans<C>,
    source: &mut S,
    sink: &mut K,
    watch: &mut W,
    setup: RunSetup<P>,
) -> Result<(), ScriptFault>
    requires runnable { MayRun C.Ready setup.settings setup.workers.items }
    ensures entered { EntersFrom S.left S.asked S.failures K.taken source.old source.new sink.old sink.new (start_of_setup setup) result }
    ensures finish { FinishesSink K.failures K.finished sink.old sink.new result }
    ensures seen { OnOk result (SeesFrom S.left K.taken W.refused source.old source.new sink.old sink.new watch.old watch.new true (start_of_setup setup)) }
{
    match begin(means.alloc, source, sink, setup) {
        Ok(mut begun) => {
            let outcome = enter_all(&mut begun, means.collector, source, sink, watch);
            drop(begun);
            finish(sink, outcome)
        }
        Err(fault) => finish(sink, Err(fault)),
    }
}

// Writes the opening, the entries of the lines from the first on that is no edge line, and how many these are. It is
// apart from the run that writes replies, and owns nothing where it leaves.
#[inline(never)]
fn enter_all<P: Payload, C: Collector, S: Source, K: Sink, W: Watch>(
    begun: &mut Begun<P>,
    collector: &C,
    source: &mut S,
    sink: &mut K,
    watch: &mut W,
) -> Result<(), ScriptFault>
    requires runnable { MayGoOn C.Ready begun.old.script begun.old.first }
    requires none { begun.old.run.store.entries ≡ [] }
    ensures written { EntersCommands S.left K.taken source.old source.new sink.old sink.new begun.old result }
    ensures streams { UsesStreams S.asked S.failures K.failures source.old source.new sink.old sink.new begun.old.script begun.old.first result }
    ensures seen { OnOk result (SeesEntered S.left K.taken W.refused source.old source.new sink.old sink.new watch.old watch.new begun.old) }
{
    let Ok(()) = write_opening(sink, begun.run.store.opening()) else {
        return Err(ScriptFault::WriteFailed);
    };
    let entered = run_commands::<P, ByEntry, C, S, K, W>(begun, collector, source, sink, watch);
    // It tells that the entries are a legal history, whatever came of the lines.
    let count = begun.run.store.journal().len();
    entered?;
    let Ok(()) = write_end(sink, count) else {
        return Err(ScriptFault::WriteFailed);
    };
    Ok(())
}
