//! The laws of a family of shells, each with its own answers, in any interleaving.
#![tactic(auto)]

ghost use Rattle.rc_model.specs.Family.Family.{FamiliesRead, Family, HasEnded, IsFamily, IsPending, IsPossible};
ghost use Rattle.rc_model.specs.Family.Family.{ArePossible, EachOf, GoesAsMeant, OneAtATime, OnePerStart};
ghost use Rattle.rc_model.specs.Family.Family.{Process, Sane};
ghost use Rattle.rc_model.specs.Family.Family.{FamilyEvent, family, first, recorded, shell_started, stepped};
ghost use Rattle.rc_model.specs.Family.Steps.{AppendsSuch, IsCutShort};
ghost use Rattle.law_family.specs.StepLaws.{AnswersAreGiven, EachStartMakes, MadeAreAsMade, MadeAreSane, MadeOrRefused};
ghost use Rattle.law_family.specs.StepLaws.{NeverBoth, OneBeginning, OneCall, OneChild, OneFault, OneStart};
ghost use Rattle.law_family.specs.StepLaws.{PromisesAreKept};
ghost use Rattle.rc_model.specs.Run.Calls.{Call, Launch};
ghost use Rattle.rc_model.specs.Run.State.{State};
ghost use Rattle.rc_model.specs.Syntax.Tree.{Node, cmd};
ghost use Rattle.std.specs.Prelude.{List, [], ℕ, ◌<◌, ◌≡◌};

/// A step adds its event to the trace of its process, changes no other process, and adds at most one process.
pub fn one_at_a_time()
    ensures { (reads : Launch → Node cmd × State) (f : Family) (e : FamilyEvent) → e.at < f.count →
        OneAtATime reads f e }
{}

/// There is process 0, and after it one process for each shell that was started, in the order of the starts.
pub fn one_per_start()
    ensures { (reads : Launch → Node cmd × State) (c : Node cmd) (s : State) (es : List FamilyEvent) →
        ArePossible reads (first reads c s) es → OnePerStart reads c s es }
{}

/// Each process of a family began with what it was handed and loses nothing, each write end is handed to at most one
/// child, and no processes wait for each other in a cycle.
pub fn family_is_sane()
    ensures { (reads : Launch → Node cmd × State) (c : Node cmd) (s : State) (es : List FamilyEvent) →
        IsFamily reads c s es → Sane reads c s (family reads (first reads c s) es) }
{}

/// Shells that read the arguments and entries of their launches begin with the script, the variables and the functions
/// that they were handed, whatever the answers.
pub fn families_read()
    ensures { FamiliesRead }
{}

/// A process has at most one pending call, and none if it has ended.
pub fn one_outcome()
    ensures { (p : Process) (c : Call) → IsPending p c → (HasEnded p → ⊥) × ((d : Call) → IsPending p d → c ≡ d) }
{}

/// Each answer for each process of a family whose processes are in time is refused, or it makes a step.
pub fn made_or_refused()
    ensures { MadeOrRefused }
{}

/// No answer that makes a step is refused.
pub fn never_both()
    ensures { NeverBoth }
{}

/// An answer is refused for at most one reason.
pub fn one_fault()
    ensures { OneFault }
{}

/// An answer of a process makes at most one step.
pub fn one_call()
    ensures { OneCall }
{}

/// A process without any answer is in time or hits the limit, and never both.
pub fn one_beginning()
    ensures { (limit : ℕ) (p : Process) → p.trace ≡ [] → OneBeginning limit p }
{}

/// After a step of a family whose processes go as they are meant, each goes so again, unless the one that was answered,
/// or the one that was appended, is cut short by this many instructions.
pub fn next_goes_as_meant()
    ensures { (reads : Launch → Node cmd × State) (limit : ℕ) (f : Family) (e : FamilyEvent) → EachOf GoesAsMeant f →
        IsPossible f e → (IsCutShort limit (recorded (f.at e.at) e.call e.answer) → ⊥) →
        (AppendsSuch reads (IsCutShort limit) e.at (f.at e.at) (shell_started e.call e.answer) → ⊥) →
        EachOf GoesAsMeant (stepped reads f e) }
{}

/// In a family that was made by steps each process goes as it is meant and began with what it was handed, and there is
/// one process for each start of a shell.
pub fn made_are_as_made()
    ensures { MadeAreAsMade }
{}

/// Over fresh answers such a family loses nothing, and no processes of it wait for each other in a cycle.
pub fn made_are_sane()
    ensures { MadeAreSane }
{}

/// The promises for a family of shells that read what they are handed are kept, after any number of steps.
pub fn promises_are_kept()
    ensures { PromisesAreKept }
{}

/// The answers of a process are those of its steps.
pub fn answers_are_given()
    ensures { AnswersAreGiven }
{}

/// A process was started by one event of one trace, even if the number of its child is given again.
pub fn one_start()
    ensures { OneStart }
{}

/// Two processes were started by two events.
pub fn one_child()
    ensures { OneChild }
{}

/// Each start of a shell that was answered by a child made a process.
pub fn each_start_makes()
    ensures { EachStartMakes }
{}
