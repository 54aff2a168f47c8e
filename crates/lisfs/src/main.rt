//! The program: it passes the real input and output to the top call, and exits with its exit code.
#![tactic(auto)]

ghost use Rattle.lis_shell.specs.Words.{MakesInRange};

mod image;
mod report;
mod usage;

use image::ImageFile;
use lis_memdisk::FileStation;
use lis_ports::StdSource;
use lis_shell::status::{Status, exit_code};
use lis_shell::top::lisfs;
use lis_shell::words::{Task, make_len, task_of};
use std::io::{Error, ErrorKind};
use std::process::ExitCode;
use std::{env, io};

/// The words after the program's name, or the status of a program that can't have them.
fn words(rt: &HostRuntime) -> Result<Vec<String>, Status> {
    let all = match env::args(rt) {
        Ok(all) => all,
        Err(error) if error.kind() == ErrorKind::OutOfMemory => return Err(Status::NO_MEMORY),
        Err(_) => return Err(Status::Usage),
    };
    let mut words = Vec::new(rt.alloc());
    for word in all.skip(1) {
        let Ok(()) = words.push(word) else {
            return Err(Status::NO_MEMORY);
        };
    }
    Ok(words)
}

// The path of the image, if the words have one.
fn path_of(words: &[String]) -> &str {
    match words.get(1) {
        Some(path) => path.as_str(),
        None => "",
    }
}

/// The image of the task, if it has one.
fn image_of(rt: &HostRuntime, task: &Task, words: &[String]) -> io::Result<Option<ImageFile>>
    requires { MakesInRange task.now }
{
    match task {
        Task::Try(_) => Ok(None),
        Task::Make(_) | Task::Upgrade | Task::OnImage(_) => {
            let image = image::open(rt, path_of(words), make_len(task))?;
            Ok(Some(image))
        }
    }
}

/// How the run ended, and, if the disk failed, why.
fn run(rt: &HostRuntime, words: &[String]) -> (Status, Option<Error>) {
    // Wrong words end the run whatever else is wrong, so no stream, file or memory is requested before.
    let Some(task) = task_of(words) else {
        return (Status::Usage, None);
    };
    let _standard = image::hold_standard(rt);
    // Without a file every disk call fails.
    let (file, len, cause) = match image_of(rt, &task, words) {
        Ok(Some(image)) => (Some(image.file), image.len, None),
        Ok(None) => (None, u64::MAX, None),
        Err(error) => (None, u64::MAX, Some(error)),
    };
    let mut input = StdSource {
        reader: rt.reader(),
        faults: 0,
        behind: 0,
    };
    let mut station = FileStation {
        file,
        len,
        out: io::writer(rt),
        disk_faults: 0,
        show_faults: 0,
        behind: 0,
        cause,
    };
    let status = lisfs(rt.alloc(), words, &mut input, &mut station);
    (status, station.cause)
}

fn main(rt: HostRuntime) -> ExitCode {
    let (words, status, cause) = match words(&rt) {
        Ok(words) => {
            let (status, cause) = run(&rt, &words);
            (words, status, cause)
        }
        Err(status) => (Vec::new(rt.alloc()), status, None),
    };
    // A text that can't be printed does not change the exit code.
    let _ = report::print(&rt, &status, &words, cause);
    ExitCode::from(exit_code(&status))
}
