//! A case: files and sinks in memory, and what is done with them.

use crate::along::report_along;
use crate::given::Given;
use crate::guards::answer_guard;
use crate::line::Call;
use crate::meeting::Meeting;
use crate::person::answer_person;
use crate::served::{Served, print_report, print_sink};
use crate::tally::Tally;
use headline::{Progress, Texts, Words, deliver, run_program};
use outside::{Gate, MemFiles, MemSink, OpenGate};
use pn_types::{NoMemory, Seq};
use quanta_log::read;
use std::alloc::Global;
use std::io;
use std::sync::Wait;
use std::thread::Threads;

/// The room of each sink in bytes.
const ROOM: u64 = 20_000_000;

/// More bytes than a sink has.
const ALL: usize = 20_000_000;

/// Files and sinks in memory.
pub struct Case {
    files: Vec<Given>,
    piece: u64,
    out_fails: Vec<u64>,
    log_fails: Vec<u64>,
    // What the output gained at the last meeting.
    report: Vec<u8>,
}

// Its drop is a function of its own, so that callers need not prove the drops of all its parts.
impl Drop for Case {
    fn drop(self) {
        let Case {
            files: _,
            piece: _,
            out_fails: _,
            log_fails: _,
            report: _,
        } = self;
    }
}

/// Returns the words of a line, between single spaces.
fn words(alloc: Global, line: Option<&str>) -> Result<Words, NoMemory> {
    let Some(line) = line else {
        return Ok(Words::NotText);
    };
    let mut words = Vec::new(alloc);
    if !line.is_empty() {
        for word in line.split(' ') {
            words.push(String::from_str(alloc, word)?)?;
        }
    }
    Ok(Words::Read(words))
}

/// Returns the texts of the log and the output, between which is a space.
fn texts(alloc: Global, line: &str) -> Result<Texts, NoMemory> {
    let (log, out) = line.split_once(' ').unwrap_or((line, ""));
    Ok(Texts {
        out: Seq::from_vec(out.as_bytes().to_vec(alloc)?),
        log: Seq::from_vec(log.as_bytes().to_vec(alloc)?),
    })
}

impl Case {
    /// Makes a case with no files, and sinks that take everything.
    pub fn new(alloc: Global) -> Case {
        Case {
            files: Vec::new(alloc),
            piece: ROOM,
            out_fails: Vec::new(alloc),
            log_fails: Vec::new(alloc),
            report: Vec::new(alloc),
        }
    }

    /// Takes up what a line says.
    ///
    /// # Errors
    ///
    /// `NoMemory` where memory runs out.
    pub fn take(&mut self, alloc: Global, word: &str, rest: &str) -> Result<(), NoMemory> {
        match word {
            "new" => *self = Case::new(alloc),
            "file" => self.files.push(Given::new(alloc, rest, true)?)?,
            "absent" => self.files.push(Given::new(alloc, rest, false)?)?,
            "piece" => self.piece = rest.parse().unwrap_or(ROOM),
            "fail-out" => self.out_fails.push(rest.parse().unwrap_or(0))?,
            "fail-log" => self.log_fails.push(rest.parse().unwrap_or(0))?,
            _ => {
                if let Some(last) = self.files.last_mut() {
                    last.change(alloc, word, rest)?;
                }
            }
        }
        Ok(())
    }

    /// Does what a line says, and prints what comes of it.
    pub fn answer<R: Threads + Wait + Sync>(
        &mut self,
        rt: HostRuntime,
        threads: &R,
        alloc: Global,
        call: Call<'_>,
    ) -> io::Result<()> {
        match call {
            Call::Serve(words) => self.serve(rt, threads, alloc, words),
            Call::Begin(rest) => self.begin(rt, threads, alloc, rest),
            Call::Keep(rest) => self.keep(rt, threads, alloc, rest),
            Call::Meet(rest) => self.meet(rt, threads, alloc, rest),
            Call::Count(words) => self.count(rt, threads, alloc, words),
            Call::Compare(words) => self.compare(rt, threads, alloc, words),
            Call::Deliver(texts) => self.deliver(rt, alloc, texts),
            Call::Row(options) => self.follow(rt, threads, alloc, options),
            Call::Person(line) => self.show(rt, threads, alloc, line),
            Call::Guard(line) => self.guard(rt, threads, alloc, line),
        }
    }

    /// Returns the files, of which none has been read.
    pub fn files(&self, alloc: Global) -> Result<MemFiles, NoMemory> {
        let mut files = MemFiles::new(alloc);
        for given in &self.files {
            given.give(alloc, &mut files)?;
        }
        Ok(files)
    }

    /// Returns a sink of which these writings fail.
    pub fn sink(&self, alloc: Global, fails: &[u64]) -> Result<MemSink, NoMemory> {
        MemSink::new(alloc, ROOM, self.piece, Vec::from_slice(alloc, fails)?)
    }

    /// Sets the bytes of the file of this name.
    fn keep_file(&mut self, alloc: Global, name: &str, bytes: &[u8]) -> Result<(), NoMemory> {
        Ok(self.files.push(Given::of(alloc, name, bytes)?)?)
    }

    /// Delivers the texts of the log and the output, and prints what each sink gained.
    fn deliver(&self, rt: HostRuntime, alloc: Global, line: &str) -> io::Result<()> {
        let texts = texts(alloc, line)?;
        let mut out = self.sink(alloc, &self.out_fails)?;
        let mut log = self.sink(alloc, &self.log_fails)?;
        let answer = match deliver(&texts, &mut out, &mut log) {
            Ok(()) => "delivered",
            Err(_) => "failed",
        };
        println!(rt; "{answer}")?;
        print_sink(rt, "log", &log)?;
        print_sink(rt, "output", &out)
    }

    /// Serves words.
    fn served<R: Threads + Wait + Sync, G: Gate + Progress + Sync>(
        &self,
        threads: &R,
        alloc: Global,
        line: Option<&str>,
        gate: &G,
    ) -> Result<Served, NoMemory> {
        let mut out = self.sink(alloc, &self.out_fails)?;
        let mut log = self.sink(alloc, &self.log_fails)?;
        let words = words(alloc, line)?;
        let mut files = self.files(alloc)?;
        let exit = run_program(threads, alloc, &words, &mut files, &mut out, &mut log, gate);
        Ok(Served { exit, out, log })
    }

    /// Prints what a person is shown of words.
    fn show<R: Threads + Wait + Sync>(
        &self,
        rt: HostRuntime,
        threads: &R,
        alloc: Global,
        line: &str,
    ) -> io::Result<()> {
        match words(alloc, Some(line))? {
            Words::Read(words) => answer_person(rt, threads, alloc, self, &words),
            Words::NotText | Words::NoMemory => Ok(()),
        }
    }

    /// Prints which files words of `pd` may write.
    fn guard<R: Threads + Wait + Sync>(
        &self,
        rt: HostRuntime,
        threads: &R,
        alloc: Global,
        line: &str,
    ) -> io::Result<()> {
        match words(alloc, Some(line))? {
            Words::Read(words) => answer_guard(rt, threads, alloc, self, &words),
            Words::NotText | Words::NoMemory => Ok(()),
        }
    }

    /// Serves words, and prints how the program ends and what the sinks gained.
    fn serve<R: Threads + Wait + Sync>(
        &self,
        rt: HostRuntime,
        threads: &R,
        alloc: Global,
        line: Option<&str>,
    ) -> io::Result<()> {
        let served = self.served(threads, alloc, line, &OpenGate)?;
        served.print_output(rt, ALL)?;
        served.print_log(rt, alloc)
    }

    /// Serves the words after a number, and prints how the program ends and what the output gained, at most that many bytes.
    fn begin<R: Threads + Wait + Sync>(
        &self,
        rt: HostRuntime,
        threads: &R,
        alloc: Global,
        rest: &str,
    ) -> io::Result<()> {
        let (most, line) = rest.split_once(' ').unwrap_or((rest, ""));
        let served = self.served(threads, alloc, Some(line), &OpenGate)?;
        served.print_output(rt, most.parse().unwrap_or(ALL))?;
        println!(rt; "\n")
    }

    /// Serves the words after a name, and prints how the program ends and what the output gained. What the log gained is the file
    /// of that name from then on.
    fn keep<R: Threads + Wait + Sync>(
        &mut self,
        rt: HostRuntime,
        threads: &R,
        alloc: Global,
        rest: &str,
    ) -> io::Result<()> {
        let (name, line) = rest.split_once(' ').unwrap_or((rest, ""));
        let served = self.served(threads, alloc, Some(line), &OpenGate)?;
        served.print_output(rt, ALL)?;
        self.keep_file(alloc, name, served.log.bytes())?;
        println!(rt; "")
    }

    /// Serves the words after a name at a gate where two workers meet, and prints how the program ends, and whether they met. What
    /// the log gained is the file of that name from then on.
    fn meet<R: Threads + Wait + Sync>(
        &mut self,
        rt: HostRuntime,
        threads: &R,
        alloc: Global,
        rest: &str,
    ) -> io::Result<()> {
        let (name, line) = rest.split_once(' ').unwrap_or((rest, ""));
        let gate = Meeting::new();
        let served = self.served(threads, alloc, Some(line), &gate)?;
        self.keep_file(alloc, name, served.log.bytes())?;
        self.report = Vec::from_slice(alloc, served.out.bytes())?;
        served.print_meeting(rt, gate.met())
    }

    /// Serves words at a gate that counts two workers' calls, and prints how the program ends, and whether each call was counted as the
    /// log that it left says.
    fn count<R: Threads + Wait + Sync>(
        &self,
        rt: HostRuntime,
        threads: &R,
        alloc: Global,
        line: &str,
    ) -> io::Result<()> {
        let gate = Tally::new();
        let served = self.served(threads, alloc, Some(line), &gate)?;
        let counted = match read(alloc, served.log.bytes()) {
            Ok((settings, quanta)) => gate.is_of(&quanta, settings.harts),
            Err(_) => false,
        };
        served.print_counted(rt, counted)
    }

    /// Serves words, and prints how the program ends, and whether the output gained the same as at the last meeting.
    fn compare<R: Threads + Wait + Sync>(
        &self,
        rt: HostRuntime,
        threads: &R,
        alloc: Global,
        line: &str,
    ) -> io::Result<()> {
        let served = self.served(threads, alloc, Some(line), &OpenGate)?;
        served.print_compared(rt, &self.report)
    }

    /// Runs the program `p` under the configuration `c` with these options, replays it, and lets a session take the quanta of the log
    /// that the run left. It prints the session's report.
    fn follow<R: Threads + Wait + Sync>(
        &mut self,
        rt: HostRuntime,
        threads: &R,
        alloc: Global,
        options: &str,
    ) -> io::Result<()> {
        let line = format!(in alloc; "run p c {options} --log l")?;
        let run = self.served(threads, alloc, Some(line.as_str()), &OpenGate)?;
        self.keep_file(alloc, "l", run.log.bytes())?;
        self.print_followed(rt, threads, alloc, &run)
    }

    /// Replays a run whose log is the file `l`, and lets a session take its quanta. It prints the session's report.
    fn print_followed<R: Threads + Wait + Sync>(
        &self,
        rt: HostRuntime,
        threads: &R,
        alloc: Global,
        run: &Served,
    ) -> io::Result<()> {
        let replay = self.served(threads, alloc, Some("replay p c l"), &OpenGate)?;
        let mut files = self.files(alloc)?;
        match report_along(alloc, &mut files, run.log.bytes()) {
            Ok(report) => print_report(rt, &report, run.out.bytes(), replay.out.bytes()),
            Err(_) => println!(rt; "refused"),
        }
    }
}
