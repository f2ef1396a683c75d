//! temuvald [--packed FILE] [--state FILE] [SCRIPT]
//! temuvald --read FILE [SCRIPT]
//!
//! Codes a script of calls, and prints what each call answered, how large the record is, and a digest of the final
//! state. The script is the file that is named, or else the standard input. With `--packed` the packed record is written
//! to a file, with `--state` the final state. With `--read`, which goes with neither, a packed record is read from a file
//! by the questions of the calls that stand, and the decisions that were read are printed instead.
#![tactic(auto)]

use anyhow::anyhow;
use coding::{code, read_file};
use script::parse::parse;
use script::{Script, ScriptError};
use std::io::Read;
use std::process::ExitCode;
use std::{env, fs, io};

/// What the command line says: the files that are named.
#[derive(Drop)]
struct CommandLine {
    /// Where to write the record.
    packed: Option<String>,
    /// Where to write the final state.
    state: Option<String>,
    /// What to read by the script's questions.
    read: Option<String>,
    script: Option<String>,
}

fn usage() -> anyhow::Error {
    anyhow!(
        "usage: temuvald [--packed FILE] [--state FILE] [SCRIPT], or temuvald --read FILE [SCRIPT]"
    )
}

/// Names a file, which has to be named once.
fn name(file: &mut Option<String>, path: Option<String>) -> anyhow::Result<()> {
    if file.is_some() || path.is_none() {
        return Err(usage());
    }
    *file = path;
    Ok(())
}

fn command_line(mut args: env::Args) -> anyhow::Result<CommandLine> {
    let mut line = CommandLine {
        packed: None,
        state: None,
        read: None,
        script: None,
    };
    let _program = args.next();
    while let Some(arg) = args.next() {
        match arg.as_str() {
            "--packed" => name(&mut line.packed, args.next())?,
            "--state" => name(&mut line.state, args.next())?,
            "--read" => name(&mut line.read, args.next())?,
            _ => name(&mut line.script, Some(arg))?,
        }
    }
    if line.read.is_some() && (line.packed.is_some() || line.state.is_some()) {
        return Err(usage());
    }
    Ok(line)
}

/// What was done with a file, or the file's name with what went wrong.
fn of_file<T>(path: &str, done: io::Result<T>) -> anyhow::Result<T> {
    done.map_err(|e| anyhow!("{path}: {e}"))
}

fn script_text(rt: &HostRuntime, path: Option<String>) -> anyhow::Result<String> {
    match path {
        Some(path) => of_file(path.as_str(), fs::read_to_string(rt, path.as_str())),
        None => {
            let mut text = String::new(rt.alloc());
            let _ = rt.stdin().read_to_string(&mut text)?;
            Ok(text)
        }
    }
}

/// Writes bytes to a file, where one is named.
fn write_to(rt: &HostRuntime, path: Option<String>, bytes: &[u8]) -> anyhow::Result<()> {
    match path {
        Some(path) => of_file(path.as_str(), fs::write(rt, path.as_str(), bytes)),
        None => Ok(()),
    }
}

/// Codes the script, or reads a file by its questions: what is to be printed.
fn printed(rt: &HostRuntime, line: CommandLine, script: &Script) -> anyhow::Result<String> {
    let CommandLine {
        packed,
        state,
        read,
        ..
    } = line;
    if let Some(path) = read {
        let bytes = of_file(path.as_str(), fs::read(rt, path.as_str()))?;
        return read_file(rt.alloc(), script, bytes.as_slice());
    }
    let coding = code(rt.alloc(), script)?;
    write_to(rt, packed, coding.packed.as_slice())?;
    write_to(rt, state, coding.state.as_slice())?;
    Ok(coding.report)
}

/// What comes of a command line: what is to be printed, or what is wrong with the script.
fn answer(rt: &HostRuntime, mut line: CommandLine) -> anyhow::Result<Result<String, ScriptError>> {
    let text = script_text(rt, line.script.take())?;
    match parse(rt.alloc(), text.as_str()) {
        Ok(script) => Ok(Ok(printed(rt, line, &script)?)),
        Err(e) => Ok(Err(e)),
    }
}

/// Prints an answer, or on standard error what is wrong.
fn tell(rt: &HostRuntime, answer: Result<String, ScriptError>) -> anyhow::Result<ExitCode> {
    match answer {
        Ok(report) => {
            rt.print(report.as_str())?;
            Ok(ExitCode::SUCCESS)
        }
        Err(e) => {
            rt.eprintln(&e)?;
            Ok(ExitCode::FAILURE)
        }
    }
}

fn run(rt: &HostRuntime) -> anyhow::Result<ExitCode> {
    let line = command_line(env::args(rt)?)?;
    tell(rt, answer(rt, line)?)
}

fn main(rt: HostRuntime) -> ExitCode {
    match run(&rt) {
        Ok(status) => status,
        Err(e) => {
            let _ = rt.eprintln(&e);
            ExitCode::FAILURE
        }
    }
}

#[cfg(test)]
mod tests;
