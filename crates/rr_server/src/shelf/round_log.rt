//! What a node says of its rounds.

use super::replaced::Replaced;
use rr_node::{Report, Tally};
use std::alloc::{AllocError, Global};
use std::io::Write;
use std::rt::Files;
use std::time::{Clock, Duration, Instant};
use std::{fmt, io};

/// Seconds, to the thousandth.
#[derive(Clone, Copy)]
struct Seconds(Duration);

impl fmt::Display for Seconds {
    fn fmt<W: fmt::Write>(&self, f: &mut fmt::Formatter<W>) -> fmt::Result {
        let (whole, thousandths) = (self.0.as_secs(), self.0.subsec_millis());
        write!(f, "{whole}.{thousandths:03}")
    }
}

/// Says what rounds did: in a line on standard error, if it prints, and in a file of counts, if one
/// is named, which is written as a snapshot is. Nothing is known of what it says.
#[derive(Drop)]
pub struct RoundLog<'a, R> {
    rt: &'a R,
    alloc: Global,
    prints: bool,
    file: Option<Replaced<'a, R>>,
    /// The connections since the last line, and all of them.
    since: Tally,
    all: Tally,
    /// How many samples no archive kept, up to the last line and in all.
    past_before: u64,
    past: u64,
    /// How many cells there were at the last count, after the pulls of a round.
    cells: usize,
    /// When the pulls or the save of this round began.
    began: Option<Instant>,
    /// How long the pulls since the last line took, and the save.
    pulls: Duration,
    save: Duration,
}

impl<'a, R: Files + Eprint + Clock> RoundLog<'a, R> {
    /// Says what rounds do from now on.
    pub fn new(
        rt: &'a R,
        alloc: Global,
        prints: bool,
        file: Option<&str>,
    ) -> Result<RoundLog<'a, R>, AllocError> {
        let file = match file {
            Some(path) => Some(Replaced::new(rt, alloc, path)?),
            None => None,
        };
        Ok(RoundLog {
            rt,
            alloc,
            prints,
            file,
            since: Tally::new(),
            all: Tally::new(),
            past_before: 0,
            past: 0,
            cells: 0,
            began: None,
            pulls: Duration::ZERO,
            save: Duration::ZERO,
        })
    }

    /// The lines of a connection were taken, with this report if they were served to the end; the
    /// pulls begin.
    pub(crate) fn lines_are_taken(&mut self, report: Option<Report>) {
        if let Some(report) = report {
            self.since.add(&report);
            self.all.add(&report);
        }
        self.began = Instant::now(self.rt).ok();
    }

    /// This many samples put since the start were kept by no archive.
    pub(crate) fn are_past_horizon(&mut self, samples: u64) {
        self.past = samples;
    }

    /// The pulls are over, and the save begins; the cells are given if they were counted.
    pub(crate) fn pulls_are_over(&mut self, cells: Option<usize>) {
        if let Some(cells) = cells {
            self.cells = cells;
        }
        self.pulls = self.pulls.saturating_add(self.elapsed());
        self.save = Duration::ZERO;
        self.began = Instant::now(self.rt).ok();
    }

    /// The save is over.
    pub(crate) fn save_is_over(&mut self) {
        self.save = self.elapsed();
    }

    /// Whether it says at the end of an interval what the rounds did.
    pub(crate) fn says(&self) -> bool {
        self.prints || self.file.is_some()
    }

    /// The time since the pulls or the save began.
    fn elapsed(&self) -> Duration {
        match self.began {
            Some(began) => began.elapsed(self.rt).unwrap_or(Duration::ZERO),
            None => Duration::ZERO,
        }
    }

    /// Says what the rounds did since the last time.
    pub(crate) fn say(&mut self) {
        if self.prints {
            self.print();
        }
        if let Some(file) = &self.file
            && let Err(error) = self.write(file)
        {
            file.print_reason(&error);
            file.remove_beside();
        }
        self.since = Tally::new();
        self.past_before = self.past;
        self.pulls = Duration::ZERO;
    }

    /// Prints the line.
    fn print(&self) {
        let Tally {
            connections,
            points,
            samples,
            refused,
        } = self.since;
        let past = self.past.saturating_sub(self.past_before);
        let (cells, pulls, save) = (self.cells, Seconds(self.pulls), Seconds(self.save));
        // If this can't be printed, there is no one to tell.
        let _printed = eprintln!(self.rt;
            "round: connections {connections} points {points} samples {samples} refused {refused} past {past} cells {cells} pulls {pulls} save {save}"
        );
    }

    /// Writes the file of counts.
    fn write(&self, file: &Replaced<'a, R>) -> io::Result<()> {
        let text = self.text()?;
        let mut output = file.create()?;
        output.write_all(text.as_bytes())?;
        file.replace(output.into_file())
    }

    /// The counts in the text form of Prometheus.
    fn text(&self) -> Result<String, AllocError> {
        let mut text = String::new(self.alloc);
        for (name, count) in [
            ("rr_connections_total", self.all.connections),
            ("rr_points_total", self.all.points),
            ("rr_samples_total", self.all.samples),
            ("rr_refused_total", self.all.refused),
            ("rr_past_horizon_total", self.past),
        ] {
            write!(text, "# TYPE {name} counter\n{name} {count}\n")?;
        }
        let cells = self.cells;
        write!(text, "# TYPE rr_cells gauge\nrr_cells {cells}\n")?;
        for (name, time) in [
            ("rr_pulls_seconds", self.pulls),
            ("rr_save_seconds", self.save),
        ] {
            let seconds = Seconds(time);
            write!(text, "# TYPE {name} gauge\n{name} {seconds}\n")?;
        }
        Ok(text)
    }
}
