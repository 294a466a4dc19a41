// What holds of every solution of the equations.
ghost use Rattle.std.specs.Prelude.{ℕ};
ghost use Rattle.fd_prog.specs.Flow.{FlowGraph};
ghost use Rattle.fd_prog.specs.Paths.{Uses, Places, Plan};
ghost use Rattle.fd_prog.specs.PathConditions.{IsGoodPlan};
ghost use Rattle.interval_graph.specs.Structure.{IsFlow, IsLast};
ghost use Rattle.gnt_solver.specs.Equations.{Solution, Solves, wants_of, AreSolved};
ghost use Rattle.gnt_solver.specs.Same.{AreSameGraphs, AreSameUses, AreSameSolutions, AreSamePlaces};

/// On every flow graph, whatever its nodes take and steal, the places that the equations give keep the conditions on every path for every item.
pub fn placement_is_good()
    ensures { (p : Plan) (last : ℕ) → IsFlow p.graph → IsLast p.graph last → AreSolved p.graph p.uses p.places → IsGoodPlan p last }
{}

/// The equations have one solution for an item: every two have the same sets at every node.
pub fn one_solution()
    ensures { (f : FlowGraph) (last x : ℕ) (u : Uses) (s r : Solution) → IsFlow f → IsLast f last → Solves f (wants_of f u x) s → Solves f (wants_of f u x) r → AreSameSolutions s r }
{}

/// The equations give one placement.
pub fn one_placement()
    ensures { (f : FlowGraph) (last : ℕ) (u : Uses) (p q : Places) → IsFlow f → IsLast f last → AreSolved f u p → AreSolved f u q → AreSamePlaces p q }
{}

/// Graphs and uses that agree everywhere have the same placements.
pub fn placement_is_told()
    ensures { (f g : FlowGraph) (u v : Uses) (p : Places) → AreSameGraphs f g → AreSameUses u v → AreSolved f u p → AreSolved g v p }
{}
