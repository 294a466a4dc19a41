// What holds of every trace and of every trail.
ghost use Rattle.std.specs.Prelude.{◌≡◌, ℕ, List, ◌∷◌, ◌++◌, [], length, slice_get, Some, ◌+◌, ◌*◌, ◌<◌, ◌≤◌, AllPairs};
ghost use Rattle.std.specs.List.{AllByRecursion};
ghost use Rattle.fd_base.specs.declared.numbering.Line.{Line as SourceLine};
ghost use Rattle.fd_prog.specs.declared.statement.Remapped.{Remapped as GivenOwners};
ghost use Rattle.fd_prog.specs.Mappings.{given_among};
ghost use Rattle.fd_prog.specs.Nodes.{Node, Simple, node_at, nodes_of};
ghost use Rattle.fd_prog.specs.Programs.{CheckedProgram};
ghost use Rattle.fd_prog.specs.Statements.{Distribute};
ghost use Rattle.fd_prog.specs.Paths.{Plan, IsPath};
ghost use Rattle.fd_prog.specs.declared.item.Event.{Event as PathEvent};
ghost use Rattle.exec_code.specs.Instructions.{FlatJob};
ghost use Rattle.exec_code.specs.Machine.{Configuration, first_configuration};
ghost use Rattle.exec_code.specs.Passing.{Mark};
ghost use Rattle.exec_code.specs.Traces.{IsTrace, IsSamePlace, walked};
ghost use Rattle.exec_code.specs.Trails.{IsTrail, distributes_before, events_in, without_hoists};

/// A job has at most one trace.
pub fn one_trace()
    ensures { (j : FlatJob) (before others : List Configuration) (last other : Configuration) → IsTrace j before last → IsTrace j others other → (before ≡ others) × (last ≡ other) }
{}

/// The trace is what is walked from the first configuration in any number of moves that is large enough.
pub fn trace_is_walked()
    ensures { (j : FlatJob) (before : List Configuration) (last : Configuration) (n : ℕ) → IsTrace j before last → length before < n → walked j n (first_configuration j) ≡ before ++ (last ∷ []) }
{}

/// No two configurations of a trace stand at one position with the same count of completed steps, which the limit bounds. So a trace is short.
pub fn traces_are_short()
    ensures apart { (j : FlatJob) (before : List Configuration) (last : Configuration) → IsTrace j before last → AllPairs (λ (c d : Configuration). IsSamePlace c d → ⊥) (before ++ (last ∷ [])) }
    ensures low { (j : FlatJob) (before : List Configuration) (last : Configuration) → IsTrace j before last → AllByRecursion (λ (c : Configuration). c.now.steps ≤ j.limit) (before ++ (last ∷ [])) }
    ensures few { (j : FlatJob) (before : List Configuration) (last : Configuration) → IsTrace j before last → length (before ++ (last ∷ [])) ≤ (j.limit + 2) * (length j.code.instructions + 1) }
{}

/// A trail is a path, and what happens on it is what happens on the path, but for hoists.
pub fn trails_are_paths()
    ensures { (p : Plan) (ns : List Node) (path : List ℕ) (n : ℕ) (ms : List Mark) → IsTrail p ns path n ms → (es : List PathEvent) × IsPath p path n es × (events_in ms ≡ without_hoists es) }
{}

/// An executed DISTRIBUTE has the number under which what it gives is looked up, so that an Install installs what its statement gives.
pub fn installs_are_numbered()
    ensures { (p : CheckedProgram) (n : ℕ) (line : SourceLine) (decomp : ℕ) (given : GivenOwners) → (node_at (nodes_of p) n).role ≡ Simple (Distribute line decomp given) → slice_get (given_among p.body) (distributes_before (nodes_of p) n) ≡ Some given }
{}
