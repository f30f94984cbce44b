// Reads a file of packets, standard input or the one that its argument names, and reports what is wrong with them (FEED; 02, A13); of a file that cannot be read it says why on standard error.
#![tactic(auto)]

ghost use Rattle.std.specs.Prelude.{◌≡◌, ◌≤◌, length};
ghost use Rattle.judging.specs.Report.{Within};

use judging::report::Report;
use std::alloc::{AllocError, Global};
use std::env::{Env, FillError};
use std::fs::File;
use std::io::{Error, Read};
use std::os::fd::AsRawFd;

// Linux's number for a name that is too long, and for bytes that are no text.
const NAME_TOO_LONG: i32 = 36;

const NO_TEXT: i32 = 84;

// Judges field after field until the file ends or is refused, which it is at the 501st.
fn judge_fields(fd: i32, bytes: &mut [u8], lines: &mut [u8]) -> Report
    ensures { Within result }
{
    let mut report = judging::report::open();
    for _ in 0..501 {
        let read = intake::read_record_from(fd, bytes);
        report = judging::report::field(report, &bytes[..read], lines);
        if read == 0 || report.number != 0 {
            return report;
        }
    }
    report
}

// Nothing is printed before the whole file has been judged.
fn judge_file(fd: i32) {
    let mut bytes = [0; intake::LONGEST_RECORD];
    // the longest report: `upper_bound` of `close`
    let mut lines = [0; 35500];
    let report = judge_fields(fd, &mut bytes, &mut lines);
    let size = judging::report::close(report, &mut lines);
    io::write_all(1, &lines[..size]);
}

// Why a file that was opened cannot be read, as a folder cannot.
fn unreadable(file: &mut File) -> Option<Error> {
    file.read(&mut []).err()
}

// Opens a file to be read. A path is text, so that a name of other bytes is refused.
fn open_named(rt: &HostRuntime, name: &[u8]) -> Result<File, Error> {
    let Ok(path) = str::from_utf8(name) else {
        return Err(Error::from_raw_os_error(NO_TEXT));
    };
    let mut file = File::open(rt, path)?;
    match unreadable(&mut file) {
        Some(why) => Err(why),
        None => Ok(file),
    }
}

// The system's words for an error, without the error's number that std puts behind them.
fn words(said: &str) -> &str {
    match said.split_once(" (os error ") {
        Some((before, _)) => before,
        None => said,
    }
}

// Says why a file cannot be read: on standard error, in one line.
fn complain(alloc: Global, name: &[u8], why: Error) -> Result<(), AllocError>
    requires { length name.now ≤ 4096 }
{
    let said = format!(in alloc; "{why}")?;
    // this program's name and that of a file
    let mut line = [0; 4103];
    text::put(b"judge: ", &mut line, 0);
    text::put(name, &mut line, 7);
    let size = 7 + name.len();
    io::write_all(2, &line[..size]);
    io::write_all(2, b": ");
    io::write_all(2, words(said.as_str()).as_bytes());
    io::write_all(2, b"\n");
    Ok(())
}

// The file that the argument names.
fn judge_named(rt: &HostRuntime) -> Result<(), AllocError> {
    let mut name = io::buffer();
    let Ok(n) = rt.arg(1, &mut name) else {
        let why = Error::from_raw_os_error(NAME_TOO_LONG);
        return complain(rt.alloc(), b"the file's name", why);
    };
    match open_named(rt, &name[..n]) {
        Ok(file) => {
            judge_file(file.as_raw_fd());
            Ok(())
        }
        Err(why) => complain(rt.alloc(), &name[..n], why),
    }
}

// Whether the program was given such an argument, also one that is too long.
fn has_argument(rt: &HostRuntime, place: usize) -> bool {
    let mut name = io::buffer();
    !matches!(rt.arg(place, &mut name), Err(FillError::NotPresent))
}

fn main(rt: HostRuntime) -> Result<(), AllocError> {
    if !has_argument(&rt, 1) {
        judge_file(0);
        return Ok(());
    }
    if has_argument(&rt, 2) {
        io::write_all(2, b"judge: one file at the most\n");
        return Ok(());
    }
    judge_named(&rt)
}
