//! Seconds and progress, on standard error.
use replay::Watch;
use std::fmt::Display;
use std::time::Instant;

/// Tells how long each part of the work took. A clock that fails is passed over.
#[derive(Drop)]
pub struct Stopwatch<'a> {
    rt: &'a HostRuntime,
    since: Option<Instant>,
}

impl<'a> Stopwatch<'a> {
    pub fn new(rt: &'a HostRuntime) -> Stopwatch<'a> {
        Stopwatch {
            rt,
            since: Instant::now(rt).ok(),
        }
    }

    pub fn restart(&mut self) {
        self.since = Instant::now(self.rt).ok();
    }

    /// The seconds since the last lap.
    fn seconds(&self) -> Option<f64> {
        let span = self.since?.elapsed(self.rt).ok()?;
        Some(span.as_secs_f64())
    }

    /// Tells the seconds since the last lap, and starts the next.
    pub fn lap(&mut self, part: impl Display + Drop) {
        if let Some(seconds) = self.seconds() {
            let _ = eprintln!(self.rt; "{part}: {seconds:.3} s");
        }
        self.restart();
    }
}

/// Tells how long each axis took and, on an axis that takes more than a second, each tenth of its rows.
#[derive(Drop)]
pub struct Progress<'a> {
    stopwatch: Stopwatch<'a>,
    // how many rows of the axis are done when there may be something to tell next
    next: u32,
}

impl<'a> Progress<'a> {
    pub fn new(rt: &'a HostRuntime) -> Progress<'a> {
        Progress {
            stopwatch: Stopwatch::new(rt),
            next: 0,
        }
    }

    fn axis_begins(&mut self, axis: u8) {
        if axis == 1 {
            self.stopwatch.lap("loading");
        }
    }

    fn axis_ends(&mut self, axis: u8) {
        self.stopwatch.lap(format_args!("axis {axis}"));
    }

    fn axis_goes_on(&self, axis: u8, done: u32, of: u32) {
        if self
            .stopwatch
            .seconds()
            .is_some_and(|seconds| seconds > 1.0)
        {
            let _ = eprintln!(self.stopwatch.rt; "axis {axis}: {done} of {of} rows");
        }
    }
}

impl<'a> Watch for Progress<'a> {
    fn rows_worked(&mut self, axis: u8, done: u32, of: u32) {
        if done > 0 && done < self.next {
            return;
        }
        self.next = done.saturating_add(of / 10 + 1).min(of);
        if done == 0 {
            self.axis_begins(axis);
        } else if done < of {
            self.axis_goes_on(axis, done, of);
        } else {
            self.axis_ends(axis);
        }
    }
}
