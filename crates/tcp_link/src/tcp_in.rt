//! What a peer sends.
ghost use Rattle.std.specs.Prelude.{◌≡◌, ◌<◌, ◌≤◌, ◌↔◌, ℕ, None, length, IsTrue, IfOk, OnOk, OnErr};
ghost use Rattle.survey_link.specs.Link.{next_count};

use crate::connection::Connection;
use crate::patience::Patience;
use crate::watch::Watch;
use log::Log;
use std::io;
use std::io::ErrorKind;
use std::marker::Model;
use std::sync::{Arc, Wait};
use std::time::{Clock, Duration};
use survey_link::{Failed, Source};

/// What a peer sends. Its bytes are opaque to the proof; contracts see its count of faults.
///
/// A peer that is idle longer than its door waits, or doesn't end its request in time, is a fault, as is one that breaks
/// the connection off.
#[derive(Drop)]
pub struct TcpIn<R> {
    connection: Arc<Connection<R>>,
    watch: Watch,
    faults: u64,
}

impl<R> Model for TcpIn<R> {
    ghost Value = { ℕ };

    ghost view = { λ a. a.faults };
}

impl<R> TcpIn<R> {
    pub(crate) fn new(connection: Arc<Connection<R>>) -> TcpIn<R>
        ensures { result ≡ 0 }
    {
        let watch = Watch::new(connection.patience.rest);
        TcpIn {
            connection,
            watch,
            faults: 0,
        }
    }

    /// Whether a reading has failed.
    pub(crate) fn has_failed(&self) -> bool
        ensures { IsTrue result ↔ (0 < self.now) }
    {
        self.faults > 0
    }
}

impl<R: Wait + Clock + Log> TcpIn<R> {
    // Reads before the rest, or the request, has taken too long. While all doors are busy no other thread can log that.
    fn read_in_time(&mut self, buf: &mut [u8]) -> io::Result<usize>
        ensures count { IfOk result (λ m. m ≤ length buf.old) }
        ensures counts_none { self.new ≡ self.old }
    {
        self.connection.say_busy();
        let Patience { rest, turn, .. } = self.connection.patience;
        if !self.connection.rests() {
            let count = self.read_within(turn, buf)?;
            self.watch.count(count);
            return Ok(count);
        }
        self.watch.set_back();
        let count = self.read_within(rest, buf)?;
        self.watch.set_back();
        self.watch.count(count);
        self.connection.set_rests(false);
        Ok(count)
    }

    // Reads before `base`, and what the bytes that came have added, has passed.
    fn read_within(&mut self, base: Duration, buf: &mut [u8]) -> io::Result<usize>
        ensures count { IfOk result (λ m. m ≤ length buf.old) }
        ensures counts_none { self.new ≡ self.old }
    {
        for _ in 0..u64::MAX {
            self.set_timeout(base)?;
            match self.connection.stream()?.read(buf) {
                Ok(count) => return Ok(count),
                Err(error) => {
                    if !self.watch.goes_on(error.kind()) {
                        return Err(error);
                    }
                }
            }
        }
        Err(ErrorKind::TimedOut.into())
    }

    fn set_timeout(&mut self, base: Duration) -> io::Result<()>
        ensures counts_none { self.new ≡ self.old }
    {
        let connection = &*self.connection;
        let pace = connection.patience.pace;
        match self.watch.timeout(&connection.runtime, base, pace)? {
            Some(timeout) => connection.stream()?.set_read_timeout(timeout),
            None => Ok(()),
        }
    }
}

impl<R: Wait + Clock + Log> Source for TcpIn<R> {
    ghost left = { λ _. None };

    ghost readings = { λ _. None };

    ghost faults = { λ faults. faults };

    ghost number = { λ _. None };

    fn read(&mut self, buf: &mut [u8]) -> Result<usize, Failed>
        requires { 0 < length buf.old }
        ensures count { IfOk result (λ m. m ≤ length buf.old) }
        ensures sound { OnOk result (self.new ≡ self.old) }
        ensures failed { OnErr result (self.new ≡ next_count self.old) }
        ensures never_falls { self.old ≤ self.new }
    {
        match self.read_in_time(buf) {
            Ok(count) => Ok(count),
            Err(_) => {
                self.faults = self.faults.saturating_add(1);
                Err(Failed)
            }
        }
    }
}
