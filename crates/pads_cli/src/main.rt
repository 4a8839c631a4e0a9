//! The program `pads`: it reads its description from the file system and its records from standard
//! input, writes lines to standard output and its last words to standard error, and ends with the
//! status of the run.
#![tactic(auto)]

ghost use Rattle.std.specs.Prelude.{◌≡◌, ◌↔◌, IfOk, None};
ghost use Rattle.pads_cli.specs.Codes.{code_of};
ghost use Rattle.pads_orders.specs.Orders.{order_of};
ghost use Rattle.pads_tool.specs.declared.status.Status.TheVariants as status;

use pads_drive::NoGate;
use pads_io::{RealFiles, RealSink, RealSource};
use pads_orders::{Word, Words};
use pads_tool::{Status, run};
use pads_value::Memory;
use std::env;
use std::io::ErrorKind;
use std::process::ExitCode;
use std::thread::Threads;

/// The words of the command line. Where one isn't UTF-8 there are none, which is no order.
fn words(rt: &HostRuntime) -> Result<Words, Memory> {
    let mut words = Words::new(rt.alloc());
    let args = match env::args(rt) {
        Ok(args) => args,
        Err(error) if error.kind() == ErrorKind::OutOfMemory => return Err(Memory),
        Err(_) => return Ok(words),
    };
    for arg in args.skip(1) {
        words.push(Word::new(arg))?;
    }
    Ok(words)
}

/// Runs the words over the streams of the process and its file system.
fn run_words<R: Threads + Sync>(
    rt: &HostRuntime,
    threads: &R,
    words: &Words,
) -> Result<Status, Memory>
    ensures usage { IfOk result (λ ended. (ended ≡ status.Usage) ↔ (order_of words.now ≡ None)) }
{
    let Ok(system) = rt.clone() else {
        return Err(Memory);
    };
    let mut files = RealFiles::new(rt.alloc(), system);
    let mut source = RealSource::new(rt.stdin());
    let mut out = RealSink::new(rt.stdout());
    let mut notes = RealSink::new(rt.stderr());
    Ok(run(
        threads,
        rt.alloc(),
        words,
        &mut files,
        &mut source,
        &mut out,
        &mut notes,
        &NoGate,
    ))
}

/// Runs the words of the command line.
fn run_line<R: Threads + Sync>(rt: &HostRuntime, threads: &R) -> Result<Status, Memory> {
    let words = words(rt)?;
    run_words(rt, threads, &words)
}

/// The exit status of a run, or that of want of memory where none was begun.
fn exit_code(ended: Result<Status, Memory>) -> u8
    ensures code { result ≡ code_of ended }
{
    match ended {
        Ok(status) => status.exit_status(),
        Err(Memory) => Status::Memory.exit_status(),
    }
}

fn main(rt: HostRuntime) -> ExitCode {
    ExitCode::from(exit_code(run_line(&rt, &rt)))
}
