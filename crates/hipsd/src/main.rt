//! `hipsd`: a server for HiPS sky maps.
//!
//! `run` of the crate `hipsd_run` is the whole program over the ends that it is given; `main` makes the real ones and calls it.
//! The commands of today are `probe`, `session`, `serve`, `export`, `verify`, `make`, `past`, `catalog` and `mirror`.
#![tactic(auto)]

ghost use Rattle.std.specs.Prelude.{◌≡◌, ◌⊎◌, ◌≤◌, IfOk, MatchResult, length};
ghost use Rattle.std.specs.Process.{exit_status};
ghost use Rattle.healpix_nested.specs.Cells.{cell_count};
ghost use Rattle.leaf_probe.specs.declared.asked.Probe.{Probe as AskedProbe};
ghost use Rattle.hipsd_run.specs.declared.command.Command.TheVariants.{Mirror, Probe as ProbeCommand};
ghost use Rattle.hipsd_run.specs.Command.{texts, Asks, IsCommand, IsCommandFor};

mod faults;

use command_output::Status;
use faults::{say_fault, say_peer_fault};
use hipsd_run::{Command, command_for, run, say_version, second_word, words};
use log::sink::Console;
use log::{LevelFilter, Log, Logged, error, warn};
use parent_rule::Steps;
use std::env::VarError;
use std::io::{BufReader, BufWriter};
use std::process::ExitCode;
use std::rt::{Env, Runtime};
use std::sync::Wait;
use std::thread::Threads;
use std::{env, io};
use std_link::{FolderShelf, StreamSink, StreamSource};
use survey_link::{OpenGate, Sink, Source};
use tcp_link::{TcpDoor, Trial, dial, tcp_doors, try_address};

/// How many doors there are.
const DOORS: usize = 64;

/// The environment variable that names a level of the log.
const LOG: &str = "HIPSD_LOG";

// Whether one can listen at the address. If not, why is logged.
fn can_listen<R: Log>(rt: &R, net: &HostRuntime, address: &str) -> bool {
    match try_address(net, address) {
        Trial::Free => true,
        Trial::Taken(refusal) => {
            error!(rt; "can't listen at {address}: {refusal}");
            false
        }
        Trial::Nowhere(refusal) => {
            error!(rt; "can't listen at {address:?}: {refusal}. ADDRESS is an IP address or a host's name, with a port, as 127.0.0.1:8080, or the path of a Unix socket, with a /");
            false
        }
    }
}

// Runs the words, and passes the status on: `mirror` over a connection to its peer, all others over standard input and output.
// A server isn't run at an address at which nobody can listen. A logger's own network knows neither names nor paths, so these
// are looked up by `net`.
fn start<R>(rt: &R, net: &HostRuntime, words: &[String]) -> io::Result<u8>
where
    R: Runtime + AllocGlobal + Threads + Wait + Log + Send + Sync + Clone + Drop,
    R::Reader: Drop,
    ensures usage { ¬ IsCommand (texts words.now) → IfOk result (λ status. (status ≡ 1) ⊎ (status ≡ 6)) }
    ensures usage_only { IfOk result (λ status. status ≡ 1 → ¬ IsCommand (texts words.now)) }
    ensures probe_range { (asked : AskedProbe) → Asks (texts words.now) (ProbeCommand asked)
        → cell_count asked.order ≤ asked.npix → IfOk result (λ status. status ≡ 13) }
{
    match command_for(words, DOORS) {
        Some(Command::Serve(_)) => {
            say_version(rt);
            if can_listen(rt, net, second_word(words)) {
                run_with_streams(rt, net, words)
            } else {
                Ok(Status::DoorFault.number())
            }
        }
        Some(Command::Mirror) => run_with_peer(rt, net, words),
        _ => run_with_streams(rt, net, words),
    }
}

// Runs `mirror` over a connection to the peer that the words name, and no door.
fn run_with_peer<R>(rt: &R, net: &HostRuntime, words: &[String]) -> io::Result<u8>
where
    R: Runtime + AllocGlobal + Threads + Wait + Log + Send + Sync + Clone + Drop,
    requires { Asks (texts words.now) Mirror }
    ensures usage { ¬ IsCommand (texts words.now) → IfOk result (λ status. (status ≡ 1) ⊎ (status ≡ 6)) }
    ensures usage_only { IfOk result (λ status. status ≡ 1 → ¬ IsCommand (texts words.now)) }
    ensures probe_range { (asked : AskedProbe) → Asks (texts words.now) (ProbeCommand asked)
        → cell_count asked.order ≤ asked.npix → IfOk result (λ status. status ≡ 13) }
{
    let address = second_word(words);
    let (mut source, mut sink) = dial(rt, net, address)?;
    let mut shelf = FolderShelf::here(rt.clone()?);
    let mut doors = Vec::new(rt.alloc());
    let status = run_over(rt, words, &mut source, &mut sink, &mut shelf, &mut doors);
    say_peer_fault(rt, status, address, &shelf);
    Ok(status)
}

// Runs the words over standard input and output, and doors of the address that they name.
fn run_with_streams<R>(rt: &R, net: &HostRuntime, words: &[String]) -> io::Result<u8>
where
    R: Runtime + AllocGlobal + Threads + Wait + Log + Send + Sync + Clone + Drop,
    R::Reader: Drop,
    ensures usage { ¬ IsCommand (texts words.now) → IfOk result (λ status. (status ≡ 1) ⊎ (status ≡ 6)) }
    ensures usage_only { IfOk result (λ status. status ≡ 1 → ¬ IsCommand (texts words.now)) }
    ensures probe_range { (asked : AskedProbe) → Asks (texts words.now) (ProbeCommand asked)
        → cell_count asked.order ≤ asked.npix → IfOk result (λ status. status ≡ 13) }
{
    let alloc = rt.alloc();
    let mut source = StreamSource::new(BufReader::new(alloc, rt.reader())?);
    let mut sink = StreamSink::new(BufWriter::new(alloc, io::writer(rt))?);
    let mut shelf = FolderShelf::here(rt.clone()?);
    let mut doors = tcp_doors(rt, net, second_word(words), DOORS)?;
    let status = run_over(rt, words, &mut source, &mut sink, &mut shelf, &mut doors);
    say_fault(rt, status, &source, &sink, &shelf);
    Ok(status)
}

// Runs the words over these ends, and answers the status.
fn run_over<R, S, K>(
    rt: &R,
    words: &[String],
    source: &mut S,
    sink: &mut K,
    shelf: &mut FolderShelf<R>,
    doors: &mut Vec<TcpDoor<R, HostRuntime>>,
) -> u8
where
    R: Runtime + AllocGlobal + Threads + Wait + Log + Send + Sync + Clone + Drop,
    S: Source,
    K: Sink,
    ensures usage { ¬ IsCommand (texts words.now) → (result ≡ 1) ⊎ (result ≡ 6) }
    ensures usage_only { result ≡ 1 → ¬ IsCommandFor (length doors.old.items) (texts words.now) }
    ensures probe_range { (asked : AskedProbe) → Asks (texts words.now) (ProbeCommand asked)
        → cell_count asked.order ≤ asked.npix → result ≡ 13 }
{
    let gate = OpenGate::new();
    let mut steps = Steps::new();
    run(rt, words, source, sink, shelf, doors, &gate, &mut steps)
}

// The exit status of a run: the run's own, and 11 where there was no memory for the words or the ends.
fn exit_code(ended: io::Result<u8>) -> ExitCode
    ensures { MatchResult ended (λ status. exit_status result ≡ status) (λ _. exit_status result ≡ 11) }
{
    match ended {
        Ok(status) => ExitCode::from(status),
        Err(_) => ExitCode::from(Status::OutOfMemory.number()),
    }
}

// The level up to which is logged: that of the environment variable `HIPSD_LOG`, and `info` if it names none.
fn log_level<R: AllocGlobal + Env>(rt: &R) -> LevelFilter {
    match env::var(rt, LOG) {
        Ok(level) => level.as_str().parse().unwrap_or(LevelFilter::Info),
        Err(_) => LevelFilter::Info,
    }
}

// Warns if the environment variable is set and names no level.
fn say_level<R: AllocGlobal + Env + Log>(rt: &R) {
    match env::var(rt, LOG) {
        Ok(level) if level.as_str().parse::<LevelFilter>().is_err() => {
            warn!(rt; "{LOG} = {level:?} is none of off, error, warn, info, debug and trace: info is used");
        }
        Err(VarError::NotUnicode) => {
            warn!(rt; "{LOG} is none of off, error, warn, info, debug and trace: info is used");
        }
        _ => {}
    }
}

fn main(rt: HostRuntime) -> ExitCode {
    let logged = Logged::new(rt, log_level(&rt), Console(rt));
    say_level(&logged);
    exit_code(match words(rt.alloc(), env::args(&rt)) {
        Ok(words) => start(&logged, &rt, &words),
        Err(error) => Err(error),
    })
}
