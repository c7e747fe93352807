//! The calculus, the reference with frames, the abstract machine on trees and on plain lists, and the laws by which they agree.
//! Each function below names one law by its contract; docs/SEMANTICS.md explains them.
#![tactic(auto)]

ghost use Rattle.semantics.specs.Laws.{ReductionIsDeterministic, ReductionIsFound, StuckIsFaulty, ReductionKeepsWellFormed, ProgramsStartWellFormed, FramesReduceAlike, FramesKeepWellFormed, TranslationUnloads, StepIsTransition, MachineIsDeterministic, SilentKeepsUnloading, BetaIsReduction, SettledAgrees, MachineSettles, StackIsFrames, TransitionsAreCounted, TransitionsAreOwed, ListsAreFlatTrees, ListsAreDeterministic, ListsRunAsTrees, ListsEndAsTrees, RunsAgree, FinishedRunsAgree, BlockedRunsAgree, BlockedRunsAreFaulty, ListRunsAgree};
ghost use Rattle.semantics.specs.Examples.{MarkedExamples};

// The calculus.

/// A configuration has at most one reduction: its kind, and the term and the store after it.
pub fn reduction_is_deterministic()
    ensures { ReductionIsDeterministic }
{}

/// A reduction is what decomposing the term and contracting its redex finds, and the other way round.
pub fn reduction_is_found()
    ensures { ReductionIsFound }
{}

/// A closed term whose locations are in the store is stuck exactly where what comes next is a select or an update of a
/// label that the object lacks, or a select, an update or a clone of a figure.
pub fn stuck_is_faulty()
    ensures { StuckIsFaulty }
{}

/// Reduction keeps a configuration closed and within its store.
pub fn reduction_keeps_well_formed()
    ensures { ReductionKeepsWellFormed }
{}

/// A program of the source, closed but for its givens, starts closed and within the store, if the store is well formed and
/// has the objects that the givens name.
pub fn programs_start_well_formed()
    ensures { ProgramsStartWellFormed }
{}

// The reference.

/// A term with frames makes exactly the reductions of the plugged term, once the frames that are due have closed.
pub fn frames_reduce_alike()
    ensures { FramesReduceAlike }
{}

/// A reduction with frames, and a frame that closes, keep the configuration closed and within its store.
pub fn frames_keep_well_formed()
    ensures { FramesKeepWellFormed }
{}

// The machine on trees.

/// What a term of the source translates to unloads, in an environment, to the term with the environment filled in; with
/// no environment, to the term.
pub fn translation_unloads()
    ensures { TranslationUnloads }
{}

/// The machine as a function makes the transitions of the machine as a relation, and no others.
pub fn step_is_transition()
    ensures { StepIsTransition }
{}

/// A state makes at most one transition.
pub fn machine_is_deterministic()
    ensures { MachineIsDeterministic }
{}

/// A τ-transition leaves the unloaded configuration as it is.
pub fn silent_keeps_unloading()
    ensures { SilentKeepsUnloading }
{}

/// A β-transition unloads to one reduction, of its kind.
pub fn beta_is_reduction()
    ensures { BetaIsReduction }
{}

/// A machine that has made all due τ-transitions is finished with a value exactly when the unloaded term is that value, can
/// make a β-transition of a kind exactly when the term has a reduction of that kind, and is blocked exactly when the term is stuck.
pub fn settled_agrees()
    ensures { SettledAgrees }
{}

/// From every state the due τ-transitions come to an end. They leave the store, and close the frames of the reference that are due.
pub fn machine_settles()
    ensures { MachineSettles }
{}

/// The return stack is, one for one, the reference's frames: over every run, a return closes a frame, a load changes nothing,
/// and a β-transition is the reference's reduction of its kind, which opens a frame exactly if the machine pushes one.
pub fn stack_is_frames()
    ensures { StackIsFrames }
{}

// Counting.

/// From the start of a program to its end the transitions are 1 + 3 × (selects + lets) + updates + clones.
pub fn transitions_are_counted()
    ensures { TransitionsAreCounted }
{}

/// At every moment of every run: the transitions made, with those that the state still owes, are those owed at the beginning
/// and what the reductions cost.
pub fn transitions_are_owed()
    ensures { TransitionsAreOwed }
{}

// The machine on plain lists.

/// The state in which a program starts, flattened, has the plain list of the term and an empty accumulator.
pub fn lists_are_flat_trees()
    ensures { ListsAreFlatTrees }
{}

/// A state of the machine on plain lists makes at most one transition, whatever its lists hold.
pub fn lists_are_deterministic()
    ensures { ListsAreDeterministic }
{}

/// Whole runs on plain lists are exactly the whole runs on trees, flattened, with the same transitions.
pub fn lists_run_as_trees()
    ensures { ListsRunAsTrees }
{}

/// The machine on plain lists is finished, or blocked, exactly when the machine on trees is.
pub fn lists_end_as_trees()
    ensures { ListsEndAsTrees }
{}

// Whole runs of a program, with its givens, over the objects that are there.

/// Whatever transitions the machine makes, the calculus makes the reductions among them, to the term and objects that the machine
/// unloads to; and whatever reductions the calculus makes, some run of the machine makes them.
pub fn runs_agree()
    ensures { RunsAgree }
{}

/// The machine finishes with a value exactly when the calculus comes to it, by the same reductions and with the same objects.
pub fn finished_runs_agree()
    ensures { FinishedRunsAgree }
{}

/// The machine comes to be blocked exactly when the calculus comes to be stuck, by the same reductions, at the same term and objects.
pub fn blocked_runs_agree()
    ensures { BlockedRunsAgree }
{}

/// A program that starts well formed is blocked exactly at a fault: a label that is missing, or a figure where an object is needed.
pub fn blocked_runs_are_faulty()
    ensures { BlockedRunsAreFaulty }
{}

/// The plain lists of a program finish with a value exactly when the calculus comes to it, by the same reductions and with the same objects.
pub fn list_runs_agree()
    ensures { ListRunsAgree }
{}

// Examples.

/// The marked examples, as far as they say nothing of tables and limits, computed: outcome, reductions, transitions, frames and
/// what comes next, on the machine and in the calculus.
pub fn marked_examples_hold()
    ensures { MarkedExamples }
{}
