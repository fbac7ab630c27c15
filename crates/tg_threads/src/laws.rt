//! Laws of the definitions alone. A function here does nothing. Its `ensures` is the law.
ghost use Rattle.tg_threads.specs.Output.{OneWorkerIsThePlainRun};

/// Suppose that all lines are commands of worker 0, that each has its entry, and that there was room for each vertex
/// and each subject. Then the replies are the output of the plain run. The plain run answers one line after the other.
pub fn one_worker_is_the_plain_run()
    ensures { OneWorkerIsThePlainRun }
{}
