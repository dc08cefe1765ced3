//! The scripts that are run.

/// A script by its name and its text. It begins with `path=(/bin)` and no other variable.
#[derive(Clone, Copy)]
pub struct Script(pub &'static str, pub &'static str);

/// The scripts whose families are run in many orders.
pub const IN_MANY_ORDERS: [Script; 25] = [
    Script("two_stages", "a | b"),
    Script("three_stages", "a | b | c"),
    Script("a_subshell_as_the_last_stage", "a | @{b | c}"),
    Script("a_pipeline_in_a_stage", "{a | b} | c"),
    Script("a_backquote", "x=`{a}; echo $x"),
    Script("a_backquote_in_a_backquote", "x=`{echo `{a}}"),
    Script("a_pipeline_in_a_backquote", "x=`{a | b}"),
    Script("a_backquote_in_a_stage", "a | echo `{b}"),
    Script("a_subshell", "@{a; b}"),
    Script("a_subshell_in_a_subshell", "@{@{a}; b}"),
    Script("a_job_and_its_wait", "a & wait"),
    Script("two_jobs_and_two_waits", "a & b & wait; wait"),
    Script("a_pipeline_in_the_background", "{a | b} & wait"),
    Script("a_wait_by_number", "a & wait $apid; b & wait $apid"),
    Script("a_wait_in_a_function", "fn f {a & wait}; f"),
    Script(
        "a_wait_in_a_function_of_a_stage",
        "fn f {a & b & wait}; f | c",
    ),
    Script(
        "a_wait_in_a_function_of_the_last_stage",
        "fn f {a & wait}; c | f",
    ),
    Script(
        "a_function_with_a_pipeline_in_a_backquote",
        "fn f {x=`{a | b}; c $x}; f | @{f}",
    ),
    Script("an_exit_in_the_last_stage", "a | {b & exit 3}"),
    Script(
        "an_exit_in_a_pipeline_in_the_last_stage",
        "a | {b | {c & exit 3}}",
    ),
    Script("a_pipeline_into_a_file", "{a | b} >f; @{c >g}"),
    Script("jobs_in_a_loop", "for(i in 1 2 3){a $i & b | c}; wait"),
    Script(
        "jobs_of_a_while",
        "while(~ $#x 0 1 2){x=($x i); a | b &}; wait",
    ),
    Script("a_job_of_a_subshell", "@{a & b}; wait"),
    Script(
        "a_function_that_waits_for_what_it_found",
        "a & fn f {wait; b | c}; f; wait",
    ),
];

/// The scripts whose calls are refused. Each kind of call is made by one of them.
pub const REFUSED: [Script; 25] = [
    Script("a_pattern_beside_a_value", "x='*'; echo $x *"),
    Script("a_pattern_before_a_name", "echo d*/f"),
    Script("a_file_then_a_copy", "c >f >[2=1]"),
    Script("a_copy_then_a_file", "c >[2=1] >f"),
    Script("a_here_document", "x=(1 2); c <<E\n$x^y $$ $z\nE\n"),
    Script(
        "a_quoted_here_document",
        "x=(1 2); c <<'E'\n$x^y $$ $z\nE\n",
    ),
    Script("two_stages", "a | b"),
    Script("three_stages", "a | b | c"),
    Script("two_stages_into_a_file", "{a | b} >f"),
    Script("exit_in_a_stage_into_a_file", "{a | {exit 3}} >f"),
    Script("a_subshell", "*=p; x=('A\u{1}B' '' '\u{2}'); @{echo $x}"),
    Script("a_backquote", "ifs=' \t\n'; x=`{c}"),
    Script("a_wait_for_a_stranger", "wait 7"),
    Script("a_job_and_two_waits", "a & wait; wait"),
    Script("a_job_and_a_wait_for_it", "a & wait $apid; wait"),
    Script("a_program_of_the_path", "nope"),
    Script("a_program_by_its_path", "/bin/x"),
    Script("a_directory_of_cdpath", "cdpath=(/a /b); cd src"),
    Script("the_built_in_cd", "fn cd {c}; builtin cd /t"),
    Script("a_file_that_is_run", ". lib q"),
    Script(
        "shifts_and_an_exit",
        "*=(a b); shift; echo $*; shift 5; exit $#*",
    ),
    Script("exec_before_a_command", "exec c; d"),
    Script(
        "a_job_and_a_pipeline_in_a_last_stage",
        "{a | {b & c | d}} >f",
    ),
    Script("a_backquote_in_a_last_stage", "a | c `{b}"),
    Script(
        "exit_in_a_pipeline_in_a_last_stage",
        "a | {b | {c & exit 3}}",
    ),
];
