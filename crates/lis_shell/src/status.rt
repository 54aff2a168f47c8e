//! How the program ends.

ghost use Rattle.std.specs.Prelude.{◌≡◌, ◌≤◌, length};
ghost use Rattle.lis_shell.specs.Causes.{is_disk_fault};
ghost use Rattle.lis_shell.specs.Endings.{exit_code_of, status_text_of};

use lis_limits::MAX_LINE;
use lis_line::carrier::Halt;
use lis_open::OpenFault;
use lis_place::Text;
use lis_session::end::End;

/// How a run of the program ended.
#[derive(Clone, Copy, Debug, PartialEq, Eq)]
pub enum Status {
    /// The words are in no form, or a limit or the number of `grow` is out of range. Nothing was read.
    Usage,
    /// The image was not opened, or `make` or `upgrade` did not make it. Or memory ran out for what follows an opening; in `try` this may
    /// happen between two commands.
    Opening(OpenFault),
    /// How what follows the opening ended. At the end of `run`, `load`, `rooms` and `try` every item of the input has its reply shown. At
    /// the end of `dump` the dump was shown, and of `view` the view or its refusal. At the end of `put` the input was read to its end and
    /// the reply shown. At the end of `grow` every item of its session was run, and the summary was shown. At the end of `make` the image
    /// was made, and of `upgrade` the image is of version 2.
    Ended(Halt<End>),
}

impl Status {
    /// All was done.
    pub const DONE: Status = Status::Ended(Halt::End);
    /// Out of memory.
    pub const NO_MEMORY: Status = Status::Opening(OpenFault::NoMemory);
    /// The input is longer than 2^40 bytes.
    pub const INPUT_LIMIT: Status = Status::Ended(Halt::Limit);
    /// A source call failed.
    pub const INPUT_FAULT: Status = Status::Ended(Halt::InputFault);
    /// A call that shows failed.
    pub const OUTPUT_FAULT: Status = Status::Ended(Halt::Stopped(End::OutputFault));

    /// Whether a disk call failed, in an opening or after it.
    pub fn is_disk_fault(&self) -> bool
        ensures { result ≡ is_disk_fault self.now }
    {
        match self {
            Status::Opening(OpenFault::DiskFault) => true,
            Status::Ended(Halt::Stopped(End::DiskFault)) => true,
            _ => false,
        }
    }
}

/// The exit code of the program.
pub fn exit_code(status: &Status) -> u8
    ensures { result ≡ exit_code_of status.now }
{
    match status {
        Status::Ended(Halt::End) => 0,
        Status::Usage => 1,
        Status::Opening(OpenFault::Damaged(_)) => 2,
        Status::Opening(OpenFault::TooShort(_, _)) => 2,
        Status::Opening(OpenFault::DiskFault) => 3,
        Status::Ended(Halt::Stopped(End::DiskFault)) => 3,
        Status::Ended(Halt::InputFault) => 4,
        Status::Ended(Halt::Stopped(End::OutputFault)) => 5,
        Status::Opening(OpenFault::NoMemory) => 6,
        Status::Ended(Halt::Limit) => 7,
    }
}

fn message(status: &Status) -> &'static [u8]
    ensures message { result.now ≡ status_text_of status.now }
    ensures short { length result.now ≤ MAX_LINE }
{
    match status {
        Status::Ended(Halt::End) => b"",
        Status::Usage => b"lisfs: usage",
        Status::Opening(OpenFault::Damaged(_)) => b"lisfs: not an image",
        Status::Opening(OpenFault::TooShort(_, _)) => b"lisfs: image too short",
        Status::Opening(OpenFault::DiskFault) => b"lisfs: disk fault",
        Status::Ended(Halt::Stopped(End::DiskFault)) => b"lisfs: disk fault",
        Status::Ended(Halt::InputFault) => b"lisfs: input fault",
        Status::Ended(Halt::Stopped(End::OutputFault)) => b"lisfs: output fault",
        Status::Opening(OpenFault::NoMemory) => b"lisfs: out of memory",
        Status::Ended(Halt::Limit) => b"lisfs: input too long",
    }
}

/// The text on standard error; empty if the program is done.
pub fn status_text(status: &Status) -> Text
    ensures { result ≡ status_text_of status.now }
{
    Text::of(message(status)).unwrap()
}
