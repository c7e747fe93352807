//! The main theorem: a session agrees with the calculus.
#![tactic(auto)]

ghost use Rattle.session_laws.specs.Main.{CallsAgree, SessionsAgree};
ghost use Rattle.session_laws.specs.Laws.{CompileIsDecided, CallsAreUnique, CallsLeaveOne, EveryListIsPerformed};
ghost use Rattle.session_laws.specs.Areas.{AreasAreSessions};

/// Each call of a session that agrees with the reference is answered as the reference answers it, and leaves a session that agrees again.
pub fn calls_agree()
    ensures { CallsAgree }
{}

/// Whatever calls a new session performs, there are states of the reference, one after each call, with which it agrees.
pub fn sessions_agree()
    ensures { SessionsAgree }
{}

/// The conditions of compile, in their order, hold of exactly one answer, which is the code's.
pub fn compile_is_decided()
    ensures { CompileIsDecided }
{}

/// The reference answers each call in one way, and goes on to one state.
pub fn calls_are_unique()
    ensures { CallsAreUnique }
{}

/// Every call of every session leaves a session, and only one; so every list of calls is performed.
pub fn calls_leave_one()
    ensures { (CallsLeaveOne) × (EveryListIsPerformed) }
{}

/// What the code's compile, start and run answer and leave over a code area is what the session's calls do.
pub fn areas_are_sessions()
    ensures { AreasAreSessions }
{}
