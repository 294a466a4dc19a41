// What holds of every sound job.
ghost use Rattle.std.specs.Prelude.{◌≡◌, ◌<◌, ◌≤◌, ◌+◌, ◌*◌, ℕ, None, Some, List, length};
ghost use Rattle.exec_code.specs.Instructions.{FlatJob};
ghost use Rattle.exec_code.specs.Sound.{IsSoundJob};
ghost use Rattle.message_laws.specs.Behaviour.{IsLawful, Take};
ghost use Rattle.fd_prog.specs.Sequence.{sequential_run};
ghost use Rattle.message_laws.specs.Outcomes.{IsRight, lines_before, lines_of};
ghost use Rattle.message_laws.specs.System.{Pick, IsComplete, IsInterleaving, changes, first_state, reached};
ghost use Rattle.message_laws.specs.Traces.{nth, IsSent, IsSound, got_before, sent_before};
ghost use Rattle.message_laws.specs.Protocol.{HasExchange, IsMatched};
ghost use Rattle.rank_behaviour.specs.Jobs.{HaveExecutors, behaviour_of_job, exchange_of, trace_of};

/// Along the trace of a sound job a Recv of an item comes only while a Send of it is open, and where no fault is noted none is open
/// at the end; at Send and Recv each rank does its message steps, and elsewhere none.
pub fn operations_are_balanced()
    ensures matched { (j : FlatJob) → IsSoundJob j → IsMatched (trace_of j) (exchange_of j) }
    ensures exchanged { (j : FlatJob) → HasExchange (trace_of j) (exchange_of j) }
{}

/// Each take of a sound job has its message: the one of the same number among those of its tag, which was posted at an earlier
/// configuration, or at the same one in the sender's first half; and where no fault is noted all messages are taken.
pub fn messages_come()
    ensures sent { (j : FlatJob) → IsSoundJob j → (c r k q tag : ℕ) → c < (trace_of j).count → r < j.ranks → nth ((trace_of j).actions c r) k ≡ Some (Take q tag) → (q < j.ranks) × IsSent (trace_of j) q r tag c k }
    ensures all_taken { (j : FlatJob) → IsSoundJob j → ((c : ℕ) → (trace_of j).noted c ≡ None) → (q r tag : ℕ) → q < j.ranks → r < j.ranks
        → got_before (trace_of j) q r tag (trace_of j).count ≡ sent_before (trace_of j) q r tag (trace_of j).count }
{}

/// Where each fault of some ranks alone has a rank that executes, a sound job's trace is sound for its ranks, so that all laws of every
/// order of their steps hold.
pub fn sound_jobs_are_lawful()
    ensures trace { (j : FlatJob) → IsSoundJob j → HaveExecutors j → IsSound (trace_of j) }
    ensures behaviour { (j : FlatJob) → IsSoundJob j → HaveExecutors j → IsLawful (behaviour_of_job j) }
{}

/// So often at most do the steps of a job's ranks change the state, in whatever order they come.
pub fn changes_of_jobs_are_few()
    ensures { (j : FlatJob) → IsSoundJob j → HaveExecutors j → (picks : List Pick) → IsInterleaving (behaviour_of_job j) first_state picks
        → changes (behaviour_of_job j) first_state picks ≤ 3 * j.ranks * j.ranks * (j.limit + 2) * (length j.code.instructions + 1) }
{}

/// Every order of the steps of a sound job's ranks goes on while a rank runs, and ends as the run in sequence does: with its end, or its
/// fault of the same step, line and kind, and with exactly its printed lines.
pub fn interleavings_print_the_run()
    ensures right { (j : FlatJob) → IsSoundJob j → HaveExecutors j → (picks : List Pick) → IsInterleaving (behaviour_of_job j) first_state picks
        → IsRight (behaviour_of_job j) (reached first_state picks) (sequential_run j.program j.input j.limit).outcome }
    ensures lines { (j : FlatJob) → IsSoundJob j → HaveExecutors j → (picks : List Pick) → IsInterleaving (behaviour_of_job j) first_state picks → IsComplete (behaviour_of_job j) (reached first_state picks)
        → lines_before (sequential_run j.program j.input j.limit).outcome (lines_of (behaviour_of_job j) (reached first_state picks)) ≡ (sequential_run j.program j.input j.limit).lines }
{}
