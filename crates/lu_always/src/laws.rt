//! Laws of unrolled matrices and of nodes. Their functions do nothing.

ghost use Rattle.lu_always.specs.Always.{AlwaysLinearizes, AlwaysServes, BadServesNone, FailsNever, PrefixesAgree};
ghost use Rattle.lu_always.specs.Certified.{CertifiedInOneRound, LivelockInOneRound, NoLivelockInOneRound, RefutedInOneRound};
ghost use Rattle.lu_always.specs.Livelocks.{LivelocksNever, LostNodeLivelocks, NodesNeverLivelock};
ghost use Rattle.lu_always.specs.Nodes.{BadNodeFails, NodesServeAll, NodesTellAll, NoneDead};
ghost use Rattle.lu_always.specs.OneRound.{OneRoundIsAllCuts, OneRoundIsCut};
ghost use Rattle.lu_always.specs.StepLivelocks.{LostStepNodeLivelocks, StepNodesNeverLivelock};
ghost use Rattle.lu_always.specs.Steps.{BlockedCallFails, StepNodesServeAll, StepNodesTellAll};

/// What it means that all unrolled matrices are linearizable. The prefixes of the serial histories
/// of each are its specification, and don't conflict. None fails: one that fails has no
/// deterministic specification.
pub fn always_laws()
    ensures linearizes { AlwaysLinearizes }
    ensures serves { AlwaysServes }
    ensures agree { PrefixesAgree }
    ensures never { FailsNever }
    ensures none { BadServesNone }
{}

/// In one round, the unrolled matrices are the cuts, and a certificate says the same of them.
pub fn one_round_laws()
    ensures cuts { OneRoundIsCut }
    ensures all_cuts { OneRoundIsAllCuts }
    ensures certified { CertifiedInOneRound }
    ensures refuted { RefutedInOneRound }
    ensures livelock { LivelockInOneRound }
    ensures no_livelock { NoLivelockInOneRound }
{}

/// A closed list of nodes in which each blocked node is good shows that all unrolled matrices are
/// linearizable, each by a deterministic specification. A path to a blocked node that is not good
/// shows that one of them is linearizable by none. A node represents all states that differ from its
/// own in dead registers only; with an empty table of dead registers, that is its own state.
pub fn node_laws()
    ensures all { NodesTellAll }
    ensures serve { NodesServeAll }
    ensures bad { BadNodeFails }
    ensures none_dead { NoneDead }
{}

/// A search need take steps only: the move of an open operation, or a call with the move after it, and
/// left movers first. A list of nodes with all nodes to which steps lead, in which each blocked node
/// is good before last calls, shows that all unrolled matrices are linearizable, each by a
/// deterministic specification. A path to a blocked node, followed by a call that would be blocked at
/// once and cannot be stuck, shows that one of them is linearizable by none. The arrays that locks
/// guard are given.
pub fn step_laws()
    ensures all { StepNodesTellAll }
    ensures serve { StepNodesServeAll }
    ensures call { BlockedCallFails }
{}

/// A closed list of nodes, from each of which moves of open operations alone may lead to where all of
/// them are blocked, shows that no unrolled matrix has a livelock. A path to a node from which they
/// may not shows that one of them has a livelock. Where none has, there is no such schedule.
pub fn livelock_laws()
    ensures none { NodesNeverLivelock }
    ensures some { LostNodeLivelocks }
    ensures never { LivelocksNever }
{}

/// Steps suffice for livelocks too. A list of nodes with all nodes to which steps lead, from each of
/// which steps of open operations alone may lead to where all of them are blocked, shows that no
/// unrolled matrix has a livelock. A path to a node from which they may not shows that one of them has
/// a livelock. The arrays that locks guard are given.
pub fn step_livelock_laws()
    ensures none { StepNodesNeverLivelock }
    ensures some { LostStepNodeLivelocks }
{}
