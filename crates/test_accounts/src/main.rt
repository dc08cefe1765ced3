//! Runs shells with an account of what they hold and owe. It makes the steps of each row of `families.rows` in this
//! folder, and runs families to their ends, in orders that must not matter. Then it runs scripts over a world that
//! refuses one call, then two, and that stops at a call, and checks what each run held and owed. It prints what differs
//! and whether all is as wanted, and how many of these runs and refused calls there were.
//! With the name of a script it runs that one on a machine, and prints its calls. With a number after the name the call
//! of that number is refused, with two numbers two calls are, and after the word `over` and a number the world stops at
//! the call of that number.
//! `test_accounts SHELLS COMMANDS` measures the steps of a family of this size.
#![tactic(auto)]

mod families;
mod refusals;
mod scripts;

use anyhow::{Context, Result};
use families::measure::measure;
use families::orders::{check_both_orders, check_orders};
use families::rows::difference;
use refusals::account_rows::differing;
use refusals::machine::run_on_machine;
use refusals::trials::{Counts, try_all};
use refusals::world::Refusals;
use scripts::{IN_MANY_ORDERS, REFUSED, Script};
use std::process::ExitCode;
use std::{env, fs};

/// Prints whether something is as wanted.
fn report(rt: HostRuntime, what: &str, are_well: bool) -> Result<()> {
    let result = if are_well {
        "as wanted"
    } else {
        "not as wanted"
    };
    println!(rt; "{what}: {result}")?;
    Ok(())
}

/// Checks the rows of families, and prints what differs.
fn check_rows(rt: HostRuntime) -> Result<bool> {
    let text = fs::read_to_string(&rt, "families.rows")?;
    let begun = format!(in rt.alloc(); "\n{text}")?;
    let mut are_well = begun.contains("\n## ");
    for row in begun.split("\n## ").skip(1) {
        let (name, written) = row.split_once('\n').unwrap_or((row, ""));
        if let Some(difference) = difference(rt.alloc(), written)? {
            are_well = false;
            println!(rt; "{name} differs:\n{difference}")?;
        }
    }
    Ok(are_well)
}

/// Checks the orders of each script, and prints each script of which one leaves all processes waiting.
fn check_scripts(rt: HostRuntime) -> Result<bool> {
    let mut are_well = true;
    for Script(name, text) in IN_MANY_ORDERS {
        if let Some(seed) = check_orders(rt.alloc(), text)? {
            are_well = false;
            println!(rt; "{name} differs: order {seed} leaves all waiting")?;
        }
    }
    Ok(are_well)
}

/// Checks the rows of accounts, and prints which differs.
fn check_accounts(rt: HostRuntime) -> Result<bool> {
    match differing(rt.alloc()) {
        Some(place) => {
            println!(rt; "the calls at {place} have another account")?;
            Ok(false)
        }
        None => Ok(true),
    }
}

/// Makes the trials of every script.
fn try_every(rt: HostRuntime) -> Result<bool> {
    let mut all = Counts::none();
    for script in REFUSED {
        all.add(try_all(rt, script)?);
    }
    println!(rt; "{} runs, {} calls refused", all.runs, all.refused)?;
    Ok(all.wrong == 0)
}

/// Checks families and scripts, and returns whether all are as wanted.
fn check_all(rt: HostRuntime) -> Result<bool> {
    let rows = check_rows(rt)?;
    report(rt, "families.rows", rows)?;
    let both = check_both_orders(rt.alloc())?;
    report(rt, "the greatest first and the least first", both)?;
    let scripts = check_scripts(rt)?;
    report(rt, "the scripts in many orders", scripts)?;
    let accounts = check_accounts(rt)?;
    report(rt, "the accounts of calls", accounts)?;
    let tried = try_every(rt)?;
    report(rt, "the scripts with calls refused", tried)?;
    Ok(rows && both && scripts && accounts && tried)
}

/// The script of this name.
fn script_named(name: &str) -> Option<Script> {
    for script in REFUSED {
        if script.0 == name {
            return Some(script);
        }
    }
    None
}

/// Runs the script of this name on a machine.
fn run_named(rt: HostRuntime, name: &str) -> Result<()> {
    let script = script_named(name).context("no such script")?;
    run_on_machine(rt, script, Refusals::None)
}

/// The calls that these words have refused.
fn refusals_of(first: &str, second: Option<&str>) -> Result<Refusals> {
    match second {
        None => Ok(Refusals::One(number_of(first)?)),
        Some(last) if first == "over" => Ok(Refusals::Halt(number_of(last)?)),
        Some(second) => Ok(Refusals::Two(number_of(first)?, number_of(second)?)),
    }
}

fn number_of(word: &str) -> Result<usize> {
    word.parse::<usize>().context("no number of a call")
}

/// Runs the script of this name on a machine with the calls refused that the words name; measures a family of these
/// sizes if there is no such script.
fn run_or_measure(rt: HostRuntime, name: &str, first: &str, second: Option<&str>) -> Result<()> {
    match script_named(name) {
        Some(script) => run_on_machine(rt, script, refusals_of(first, second)?),
        None => measure(rt, name, first),
    }
}

/// What the process ends with.
fn status_of(are_well: bool) -> ExitCode {
    if are_well {
        ExitCode::SUCCESS
    } else {
        ExitCode::FAILURE
    }
}

fn main(rt: HostRuntime) -> Result<ExitCode> {
    let mut args = env::args(&rt)?.skip(1);
    match (args.next(), args.next(), args.next()) {
        (Some(name), Some(first), second) => run_or_measure(rt, &name, &first, second.as_deref())?,
        (Some(name), None, _) => run_named(rt, &name)?,
        (None, _, _) => return Ok(status_of(check_all(rt)?)),
    }
    Ok(ExitCode::SUCCESS)
}
