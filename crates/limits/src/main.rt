//! Codes the scripts of tables, and holds what is printed for each to what the table says. It prints how many scripts of
//! each table came out as they should; each difference is printed before that, and then the program ends with status 1.
#![tactic(auto)]

mod table;
#[cfg(test)]
mod tests;

use crate::table::{Case, Wanted, cases};
use anyhow::anyhow;
use cdf::Entry;
use coding::{Coding, code};
use packed::split_entry;
use script::parse::parse;
use std::alloc::Global;
use std::fmt::Write;
use std::process::ExitCode;
use std::{env, fs};

/// The entries at the front of packed bytes, each in a line.
fn list_entries(out: &mut String, bytes: &[u8]) -> anyhow::Result<()> {
    let mut rest = bytes;
    while let Some((Entry { s, n, fl, fh }, behind)) = split_entry(rest) {
        writeln!(out, "{s} {n} {fl} {fh}")?;
        rest = behind;
    }
    Ok(())
}

/// What is printed for a script: what its calls answer, or its fault; and then the record's entries, where they are
/// wanted.
fn printed(heap: Global, case: &Case) -> anyhow::Result<String> {
    let script = match parse(heap, case.script.as_str()) {
        Ok(script) => script,
        Err(e) => return Ok(e.to_string(heap)?),
    };
    let Coding { report, packed, .. } = code(heap, &script)?;
    let mut text = report;
    if case.wants_entries() {
        text.push_str("entries\n")?;
        list_entries(&mut text, packed.as_slice())?;
    }
    Ok(text)
}

/// A line for each difference between what has to be printed and what came.
fn differences(heap: Global, case: &Case, came: &str) -> anyhow::Result<String> {
    let mut out = String::new(heap);
    let mut wanted = case.wanted.iter();
    for line in came.lines() {
        match wanted.next() {
            Some(Wanted { text, .. }) if text.as_str() == line => {}
            Some(Wanted { line: at, text }) => {
                writeln!(&mut out, "line {at}: expected '{text}', came '{line}'")?;
            }
            None => {
                writeln!(
                    &mut out,
                    "line {}: expected nothing, came '{line}'",
                    case.end
                )?;
            }
        }
    }
    for Wanted { line: at, text } in wanted {
        writeln!(&mut out, "line {at}: expected '{text}', came nothing")?;
    }
    Ok(out)
}

/// Codes the scripts of a table, prints the differences, and answers whether there were none.
fn hold(rt: &HostRuntime, path: &str) -> anyhow::Result<bool> {
    let heap = rt.alloc();
    let table = fs::read_to_string(rt, path)?;
    let cases = cases(heap, table.as_str())?;
    // counted as they come: only one report is held at a time
    let mut equal = 0usize;
    for case in &cases {
        let came = match printed(heap, case) {
            Ok(text) => text,
            Err(e) => e.to_string(heap)?,
        };
        let report = differences(heap, case, came.as_str())?;
        rt.print(report.as_str())?;
        equal = equal.saturating_add(usize::from(report.is_empty()));
    }
    let all = cases.len();
    println!(rt; "{path}: {equal} of {all} scripts as expected")?;
    Ok(equal == all)
}

fn run(rt: &HostRuntime) -> anyhow::Result<()> {
    let mut args = env::args(rt)?;
    let _program = args.next();
    if args.len() == 0 {
        return Err(anyhow!("usage: limits TABLE.."));
    }
    let mut fine = true;
    for path in args {
        fine &= hold(rt, path.as_str())?;
    }
    if !fine {
        return Err(anyhow!("not all scripts came out as expected"));
    }
    Ok(())
}

fn main(rt: HostRuntime) -> ExitCode {
    match run(&rt) {
        Ok(()) => ExitCode::SUCCESS,
        Err(e) => {
            let _ = rt.eprintln(&e);
            ExitCode::FAILURE
        }
    }
}
