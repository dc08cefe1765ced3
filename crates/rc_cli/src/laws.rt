//! Laws of the runs of the program. Each function does nothing: its contract is the law.
ghost use Rattle.rc_cli.specs.Launches.{LaunchesAreRun, OptionsAreAlike};
ghost use Rattle.rc_cli.specs.Runs.{FirstFaultsAreErrors};

/// A shell that is started runs what it was handed: its words and entries make the request for the tree and the state
/// that the definitions read in them.
pub fn launches_are_run()
    ensures options { OptionsAreAlike }
    ensures run { LaunchesAreRun }
{}

/// A script with a fault ends in an error that names the first one.
pub fn first_faults_are_errors()
    ensures { FirstFaultsAreErrors }
{}
