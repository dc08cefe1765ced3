//! The plan of a launch.
ghost use Rattle.std.specs.Prelude.{◌≡◌, unwrap_or};
ghost use Rattle.rc_world.specs.Views.{launch_of, program_of};
ghost use Rattle.rc_host.specs.Plan.{plan_of};
ghost use Rattle.rc_host.specs.PlanViews.{plan_view};

use crate::launches::planned::Plan;
use rc_world::{Launch, Program};

/// Plans a launch, given the path `shell` of the shell's own program. Each launch has a plan, whatever its name and its
/// descriptors are.
pub fn plan<'a>(launch: &'a Launch, shell: &'a str) -> Plan<'a>
    ensures { plan_view result ≡ plan_of shell.now (launch_of launch.now) }
{
    Plan {
        program: path_of(shell, &launch.program),
        args: &launch.args,
        env: &launch.env,
        slots: launch.slots,
    }
}

fn path_of<'a>(shell: &'a str, program: &'a Program) -> &'a str
    ensures { result.now ≡ unwrap_or (program_of program.now) shell.now }
{
    match program {
        Program::Shell => shell,
        Program::Path(path) => path.as_str(),
    }
}
