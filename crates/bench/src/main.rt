//! bench check | time [ROUNDS] | list
//!
//! Work of the writing side: `trials` (skip flags in trials that are taken back), `mix` (a fixed list of calls of all kinds,
//! with no trial open) and `log` (what undo records of tables cost alone). `check` does each in few rounds, and
//! prints what came of it. `time` prints a line for each, the time of a call in the fastest of so many rounds, by default 20.
//! `list` prints the calls of `mix` as a script, for other programs to make.
#![tactic(auto)]

mod memory;
mod mix;
mod random;
mod timing;
mod trials;
mod windows;

use crate::mix::{Mix, calls};
use crate::timing::{Piece, best, refused};
use crate::trials::Trials;
use crate::windows::Windows;
use anyhow::anyhow;
use av1::Cell;
use cdf::Entry;
use coding::{digest, state_bytes};
use record::Sink;
use script::{Decided, Digest, State};
use stage::Stage;
use std::env;
use std::process::ExitCode;

// How many trials are timed as one round, and how often the records of tables.
const TIMES: usize = 1000;

// More than can be open at once.
const FEW: usize = 20;

// The digest of entries: of each the symbol, the number of symbols, and the two values, low byte first.
fn entries_digest(entries: &[Entry]) -> u64 {
    let mut d = Digest::new();
    for e in entries {
        d.byte(e.s);
        d.byte(e.n);
        d.word(e.fl);
        d.word(e.fh);
    }
    d.value()
}

fn words_digest(words: &[u16]) -> u64 {
    let mut d = Digest::new();
    for w in words {
        d.word(*w);
    }
    d.value()
}

fn print_state(rt: &HostRuntime, stage: &Stage, map: &[Cell]) -> anyhow::Result<()> {
    let bytes = state_bytes(rt.alloc(), stage, map)?;
    println!(rt; "{}", State(digest(&bytes)))?;
    Ok(())
}

// What trials leave in a record before one is taken back, and behind them.
fn check_trials(rt: &HostRuntime) -> anyhow::Result<()> {
    let mut trials = Trials::new(rt.alloc(), FEW)?;
    let decisions = trials.round().map_err(refused)?;
    println!(rt; "trials: {FEW} trials, {decisions} decisions")?;
    print_state(rt, &trials.stage, &trials.memory.map)?;
    let depth = trials.stage.open_at(&trials.memory.sink).map_err(refused)?;
    trials.decide(0).map_err(refused)?;
    println!(rt;
        "in the first: {} entries, digest {:016x}",
        trials.memory.sink.count(),
        entries_digest(trials.memory.sink.entries())
    )?;
    print_state(rt, &trials.stage, &trials.memory.map)?;
    trials.undo(depth).map_err(refused)?;
    Ok(())
}

fn check_mix(rt: &HostRuntime) -> anyhow::Result<()> {
    let mut mix = Mix::new(rt.alloc())?;
    // the second round begins anew
    let _ = mix.round().map_err(refused)?;
    let calls = mix.round().map_err(refused)?;
    println!(rt; "mix: {calls} calls")?;
    println!(rt;
        "{} entries, digest {:016x}",
        mix.memory.sink.count(),
        entries_digest(mix.memory.sink.entries())
    )?;
    print_state(rt, &mix.stage, &mix.memory.map)?;
    Ok(())
}

fn check_log(rt: &HostRuntime) -> anyhow::Result<()> {
    let mut windows = Windows::new(FEW);
    let records = windows.round().map_err(refused)?;
    println!(rt; "log: {records} records put back")?;
    println!(rt; "words {:016x}", words_digest(windows.tables.words()))?;
    windows.log(0);
    println!(rt;
        "after the first 64 symbols: words {:016x}",
        words_digest(windows.tables.words())
    )?;
    Ok(())
}

fn check(rt: &HostRuntime) -> anyhow::Result<()> {
    check_trials(rt)?;
    check_mix(rt)?;
    check_log(rt)
}

// What a round leaves is printed behind its time, so that no work is left out when the program is made.
fn time(rt: &HostRuntime, rounds: usize) -> anyhow::Result<()> {
    let mut trials = Trials::new(rt.alloc(), TIMES)?;
    let least = best(rt, rounds, &mut trials)?;
    println!(rt; "trials {least} ns a decision")?;
    print_state(rt, &trials.stage, &trials.memory.map)?;
    let mut mix = Mix::new(rt.alloc())?;
    let least = best(rt, rounds, &mut mix)?;
    println!(rt; "mix {least} ns a call")?;
    print_state(rt, &mix.stage, &mix.memory.map)?;
    let mut windows = Windows::new(TIMES);
    let least = best(rt, rounds, &mut windows)?;
    println!(rt; "log {least} ns a symbol")?;
    println!(rt; "words {:016x}", words_digest(windows.tables.words()))?;
    Ok(())
}

// The calls of the mix as a script.
fn list(rt: &HostRuntime) -> anyhow::Result<()> {
    println!(rt; "tile 64 64 7")?;
    for call in &calls(rt.alloc())? {
        println!(rt;
            "{}",
            Decided {
                call: *call,
                segment: 0
            }
        )?;
    }
    Ok(())
}

fn run(rt: &HostRuntime) -> anyhow::Result<()> {
    let mut args = env::args(rt)?;
    let _program = args.next();
    let mode = args.next();
    match mode.as_deref() {
        Some("check") => check(rt),
        Some("time") => {
            let rounds = match args.next() {
                Some(word) => word.as_str().parse::<usize>()?,
                None => 20,
            };
            time(rt, rounds)
        }
        Some("list") => list(rt),
        _ => Err(anyhow!("usage: bench check | time [ROUNDS] | list")),
    }
}

fn main(rt: HostRuntime) -> ExitCode {
    match run(&rt) {
        Ok(()) => ExitCode::SUCCESS,
        Err(e) => {
            let _ = rt.eprintln(&e);
            ExitCode::FAILURE
        }
    }
}
