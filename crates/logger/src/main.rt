//! Logs gate positions from standard input on a page, through a blocker, and restores them at the end.
//! A line is `gate N POSITION`, `flush` or `off`; `off` and the end of the input shut the log down.
//! The first argument is the size of the page in bytes, 4096 where there is none.
#![tactic(auto)]

use gatelog::commands::Command;
use gatelog::entries::Entry;
use gatelog::loggers::{Logger, PageLogger, Refusal};
use gatelog::positions::Positions;
use std::env;
use std::io::{BufRead, BufReader};

/// The size of the page.
fn page_bytes(rt: &HostRuntime) -> anyhow::Result<usize> {
    let Some(text) = env::args(rt)?.nth(1) else {
        return Ok(4096);
    };
    Ok(text.parse()?)
}

/// Logs one entry and says what became of it.
fn record(rt: &HostRuntime, log: &mut PageLogger, line: u64, entry: Entry) -> anyhow::Result<()> {
    // No `Display` of a `Refusal`: the words name the page and the gate, of which it knows nothing.
    match log.record(entry) {
        Ok(()) => println!(rt; "recorded {entry}: {log}")?,
        Err(Refusal::NoSpace) => println!(rt; "line {line}: page full")?,
        Err(Refusal::NoSuchGate) => println!(rt; "line {line}: no gate {}", entry.gate)?,
    }
    Ok(())
}

/// Writes what is held back and says so.
fn flush(rt: &HostRuntime, log: &mut PageLogger, word: &str) -> anyhow::Result<()> {
    log.flush();
    println!(rt; "{word}: {log}")?;
    Ok(())
}

/// Does what the lines say, up to `off` or the end of the input.
fn serve(rt: &HostRuntime, log: &mut PageLogger) -> anyhow::Result<()> {
    let input = BufReader::new(rt.alloc(), rt.stdin())?;
    for (number, line) in (1..u64::MAX).zip(input.split(rt.alloc(), b'\n')) {
        let line = line?;
        match Command::read(&line) {
            Some(Command::Record(entry)) => record(rt, log, number, entry)?,
            Some(Command::Flush) => flush(rt, log, "flushed")?,
            Some(Command::Off) => break,
            None => println!(rt; "line {number}: not understood")?,
        }
    }
    Ok(())
}

/// Prints the positions that are known.
fn show(rt: &HostRuntime, positions: &Positions) -> anyhow::Result<()> {
    for gate in 1..=9 {
        if let Some(position) = positions.of_gate(gate) {
            let entry = Entry { gate, position };
            println!(rt; "restored {entry}")?;
        }
    }
    Ok(())
}

/// The log is shut down on every way out, also where the input or the output fails.
fn run(rt: &HostRuntime) -> anyhow::Result<()> {
    let mut page = vec![in rt.alloc(); 0u8; page_bytes(rt)?]?;
    let mut log = Logger::on_page(page.as_mut_slice());
    let served = serve(rt, &mut log);
    let told = flush(rt, &mut log, "off");
    let shown = show(rt, &log.off());
    served?;
    told?;
    shown
}

fn main(rt: HostRuntime) -> anyhow::Result<()> {
    run(&rt)
}
