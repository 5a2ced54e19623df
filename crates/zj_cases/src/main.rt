//! Runs the cases of a text over memory: each calls the tool as the program does, on devices that fail and crash as the text says,
//! and compares what comes with what the text expects.
#![tactic(auto)]

mod asked;
mod bench;
mod device_steps;
mod devices;
mod past;
mod run;
mod shelf;
mod step;
mod text;
mod trouble;

use run::Runner;
use std::io;
use std::process::ExitCode;

fn main(rt: HostRuntime) -> anyhow::Result<ExitCode> {
    let text = io::read_to_string(rt.alloc(), rt.reader())?;
    let mut runner = Runner::new(rt.alloc());
    for (place, line) in text.as_str().lines().enumerate() {
        runner.take(place, line)?;
    }
    runner.finish()?;
    let (cases, runs, differ) = (runner.cases, runner.runs, runner.differ);
    let told = runner.told.as_str();
    println!(rt; "{told}{cases} cases, {runs} runs, {differ} differ")?;
    Ok(if differ == 0 {
        ExitCode::SUCCESS
    } else {
        ExitCode::FAILURE
    })
}
