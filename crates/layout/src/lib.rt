//! The laws of the layout: what compiled tables stand for.
#![tactic(auto)]

ghost use Rattle.layout.specs.Laws.{LaidOut, Lasts, LayoutSizes, OneTerm, Worked};

/// A compiled program stands, under its number, for the operation tree of its term.
pub fn laid_out()
    ensures { LaidOut }
{}

/// What stands in the tables still stands when more is appended to them.
pub fn lasts()
    ensures { Lasts }
{}

/// The layout of a term takes of each table what the term's sizes say.
pub fn layout_sizes()
    ensures { LayoutSizes }
{}

/// A table is the rows of one term at most.
pub fn one_term()
    ensures { OneTerm }
{}

/// Two layouts, written out.
pub fn worked()
    ensures { Worked }
{}
