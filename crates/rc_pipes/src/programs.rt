//! Programs: finding, starting and waiting for them.

ghost use Rattle.std.specs.Prelude.{◌≡◌, ◌∷◌, ◌++◌, [], Some, codes, IfOk, OnErr, map, string_bytes};
ghost use Rattle.rc_model.specs.Run.Acts.{report, runtime_error, is_path, candidate};
ghost use Rattle.rc_model.specs.Run.Acts.{is_program, first_program, find_program};
ghost use Rattle.rc_model.specs.Run.Acts.{ending_status, start_if_fit, refuse, wait_started, run_found, run_program};
ghost use Rattle.rc_model.specs.Run.State as model;
ghost use Rattle.rc_model.specs.Handed.Image.{is_fit, program_launch};
ghost use Rattle.rc_world.specs.Comes.{Reads, Does};
ghost use Rattle.rc_world.specs.Views.{launch_of};
ghost use Rattle.rc_pipes.specs.Starts.{path_of, paths_in, started_of};
ghost use Rattle.rc_text.specs.Texts.{text_bytes};
ghost use Rattle.rc_scope.specs.States.{state_of};

use rc_image::{are_short, entries, keep_entries};
use rc_scope::State;
use rc_text::Text;
use rc_world::{ChildNo, Ending, Kind, Launch, Program, Slots, Stop, World, calls};
use std::alloc::{AllocError, Global};

fn report_line(alloc: Global, text: &str) -> Result<String, AllocError>
    ensures { IfOk result (λ line. string_bytes line ≡ (codes "rc: " ++ text.now ++ 10 ∷ [])) }
{
    format!(in alloc; "rc: {text}\n")
}

/// Writes `rc: TEXT` to descriptor 2.
#[tactic(auto, using(crate::proofs::ProgramActs::acting))]
fn report<W: World>(alloc: Global, world: &mut W, slots: Slots, text: &str) -> Result<(), Stop>
    ensures { (s : model.State) → Reads W.events world.old world.new s (report slots text.now) (λ x. x) result }
{
    let line = report_line(alloc, text)?;
    calls::write(world, slots.errors, line.as_bytes())?;
    Ok(())
}

/// Whether a name is a path.
pub fn is_path(name: &str) -> bool
    ensures { result ≡ is_path name.now }
{
    name.starts_with("/") || name.starts_with("./") || name.starts_with("../")
}

/// The path of a program or a file of commands in a directory.
pub(crate) fn candidate(alloc: Global, dir: &str, name: &str) -> Result<String, AllocError>
    ensures { IfOk result (λ path. string_bytes path ≡ candidate dir.now name.now) }
{
    if dir.is_empty() || dir == "." {
        return format!(in alloc; "./{name}");
    }
    format!(in alloc; "{dir}/{name}")
}

fn is_program(found: Option<Kind>) -> bool
    ensures { result ≡ is_program found }
{
    matches!(found, Some(Kind::Program))
}

/// The path in the first of these directories that has the program.
#[tactic(auto, using(crate::proofs::ProgramActs::acting))]
fn first_program<W: World>(
    alloc: Global,
    world: &mut W,
    name: &str,
    dirs: &[Text],
) -> Result<Option<String>, Stop>
    ensures { (s : model.State) → Reads W.events world.old world.new s
        (first_program (paths_in name.now dirs.now)) path_of result }
{
    for dir in dirs {
        let path = candidate(alloc, dir.as_str(), name)?;
        if is_program(calls::probe(world, &path)?) {
            return Ok(Some(path));
        }
    }
    Ok(None)
}

/// The path of a program: its name if that is a path, else that in the first directory of `$path` that has it.
#[tactic(auto, using(crate::proofs::ProgramActs::acting))]
pub fn find_program<W: World>(
    alloc: Global,
    world: &mut W,
    state: &State,
    name: &str,
) -> Result<Option<String>, Stop>
    ensures { Reads W.events world.old world.new (state_of state.now) (find_program name.now) path_of result }
{
    if is_path(name) {
        return Ok(Some(String::from_str(alloc, name)?));
    }
    if name.is_empty() {
        return Ok(None);
    }
    first_program(alloc, world, name, state.value("path"))
}

/// The status for how a child ended, or for a child that could not be waited for.
pub(crate) fn ending_status(alloc: Global, ending: Option<Ending>) -> Result<String, AllocError>
    ensures { IfOk result (λ status. string_bytes status ≡ ending_status ending) }
{
    match ending {
        None => String::from_str(alloc, "cannot wait"),
        Some(Ending::Code(0)) => Ok(String::new(alloc)),
        Some(Ending::Code(code)) => code.to_string(alloc),
        Some(Ending::Signal) => String::from_str(alloc, "signal"),
    }
}

fn refusal_text(alloc: Global, name: &str, why: &str) -> Result<String, AllocError>
    ensures { IfOk result (λ text. string_bytes text ≡ (name.now ++ codes ": " ++ why.now)) }
{
    format!(in alloc; "{name}: {why}")
}

/// Reports a program that cannot be run, and why.
#[tactic(auto, using(crate::proofs::ProgramActs::acting))]
fn refuse<W: World>(
    alloc: Global,
    world: &mut W,
    state: &mut State,
    slots: Slots,
    name: &str,
    why: &str,
) -> Result<(), Stop>
    ensures does { Does W.events world.old world.new state_of state.old state.new
        (refuse slots name.now why.now) (λ x. x) result }
    ensures err { OnErr result (state_of state.new ≡ state_of state.old) }
{
    let text = refusal_text(alloc, name, why)?;
    report(alloc, world, slots, &text)?;
    state.set_status(why)?;
    Ok(())
}

/// The result of the start of a child.
#[derive(Clone, Copy)]
pub(crate) enum Started {
    Child(ChildNo),
    /// There is no child, for this reason.
    NoChild(&'static str),
}

/// Whether a launch is within the limits.
fn is_fit(launch: &Launch) -> bool
    ensures { result ≡ is_fit (launch_of launch.now) }
{
    are_short(&launch.args) && are_short(&launch.env)
}

/// Starts a child, if its arguments and entries are short enough.
#[tactic(auto, using(crate::proofs::ProgramActs::acting))]
pub(crate) fn start_child<W: World>(world: &mut W, launch: &Launch) -> Result<Started, Stop>
    ensures { (s : model.State) →
        Reads W.events world.old world.new s (start_if_fit (launch_of launch.now)) started_of result }
{
    if !is_fit(launch) {
        return Ok(Started::NoChild("too large"));
    }
    match calls::start(world, launch)? {
        Some(child) => Ok(Started::Child(child)),
        None => Ok(Started::NoChild("cannot start")),
    }
}

/// Waits for a program that was started.
#[tactic(auto, using(crate::proofs::ProgramActs::acting))]
fn wait_started<W: World>(
    alloc: Global,
    world: &mut W,
    state: &mut State,
    slots: Slots,
    name: &str,
    started: Started,
) -> Result<(), Stop>
    ensures does { Does W.events world.old world.new state_of state.old state.new
        (wait_started slots name.now (started_of started)) (λ x. x) result }
    ensures err { OnErr result (state_of state.new ≡ state_of state.old) }
{
    let child = match started {
        Started::Child(child) => child,
        Started::NoChild(why) => return refuse(alloc, world, state, slots, name, why),
    };
    let ending = calls::wait(world, child)?;
    let status = ending_status(alloc, ending)?;
    state.set_status(&status)?;
    Ok(())
}

/// The launch of a program, whose arguments are passed on unchanged.
fn launch(
    alloc: Global,
    state: &State,
    slots: Slots,
    path: String,
    args: Vec<Text>,
) -> Result<Launch, AllocError>
    ensures { IfOk result (λ launch. launch_of launch
        ≡ program_launch slots (string_bytes path) (map text_bytes args.items) (state_of state.now)) }
{
    let env = entries(alloc, state)?;
    Ok(Launch {
        program: Program::Path(path),
        args,
        env,
        slots,
    })
}

/// Starts the program at this path.
#[tactic(auto, using(crate::proofs::ProgramActs::acting))]
fn run_at<W: World>(
    alloc: Global,
    world: &mut W,
    state: &mut State,
    slots: Slots,
    name: &str,
    args: Vec<Text>,
    path: String,
) -> Result<(), Stop>
    ensures does { Does W.events world.old world.new state_of state.old state.new
        (run_found slots name.now (map text_bytes args.items) (Some (string_bytes path))) (λ x. x) result }
    ensures err { OnErr result (state_of state.new ≡ state_of state.old) }
{
    keep_entries(alloc, state)?;
    let launch = launch(alloc, state, slots, path, args)?;
    let child = start_child(world, &launch)?;
    wait_started(alloc, world, state, slots, name, child)
}

/// Starts a program, if it was found.
#[tactic(auto, using(crate::proofs::ProgramActs::acting))]
fn run_found<W: World>(
    alloc: Global,
    world: &mut W,
    state: &mut State,
    slots: Slots,
    name: &str,
    args: Vec<Text>,
    path: Option<String>,
) -> Result<(), Stop>
    ensures does { Does W.events world.old world.new state_of state.old state.new
        (run_found slots name.now (map text_bytes args.items) (path_of path)) (λ x. x) result }
    ensures err { OnErr result (state_of state.new ≡ state_of state.old) }
{
    match path {
        Some(path) => run_at(alloc, world, state, slots, name, args, path),
        None => refuse(alloc, world, state, slots, name, "not found"),
    }
}

/// Runs a program by its name, and waits for it. The status is how it ended: null for 0, another number in decimal, or
/// `signal`. If it could not be run the status is `not found`, `cannot start` or `too large`, with a report; if it
/// could not be waited for, `cannot wait`.
#[tactic(auto, using(crate::proofs::ProgramActs::acting))]
pub fn run_program<W: World>(
    alloc: Global,
    world: &mut W,
    state: &mut State,
    slots: Slots,
    name: &str,
    args: Vec<Text>,
) -> Result<(), Stop>
    ensures does { Does W.events world.old world.new state_of state.old state.new
        (run_program slots name.now (map text_bytes args.items)) (λ x. x) result }
    ensures err { OnErr result (state_of state.new ≡ state_of state.old) }
{
    let path = find_program(alloc, world, state, name)?;
    run_found(alloc, world, state, slots, name, args, path)
}

/// Reports a runtime error, and sets the status to `error`. The shell then ends.
#[tactic(auto, using(crate::proofs::ProgramActs::acting))]
pub fn runtime_error<W: World>(
    alloc: Global,
    world: &mut W,
    state: &mut State,
    slots: Slots,
    text: &str,
) -> Result<(), Stop>
    ensures does { Does W.events world.old world.new state_of state.old state.new
        (runtime_error slots text.now) (λ x. x) result }
    ensures err { OnErr result (state_of state.new ≡ state_of state.old) }
{
    report(alloc, world, slots, text)?;
    state.set_status("error")?;
    Ok(())
}
