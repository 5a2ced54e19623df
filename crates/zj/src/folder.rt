//! The options before the command, which are the program's own: the folders that it goes to first.

use std::io::ErrorKind;
use std::process::ExitCode;
use std::{env, io};
use zj_cli::Fault;

/// The option with a folder behind it.
const OPTION: &str = "-C";

/// The status where the words are no command.
const WORDS: u8 = 1;

/// The status where a folder isn't there, as where a device of the image is absent.
const ABSENT: u8 = 3;

/// Why a folder isn't gone to.
#[derive(Debug, Drop)]
pub enum FolderFault<'a> {
    /// The option has no word behind it.
    Unnamed,
    /// The system doesn't go to the folder of that name.
    Refused { name: &'a str, kind: ErrorKind },
}

/// The words up to the command, each the option or its folder, and those from the command on.
pub fn split_options(words: &[String]) -> (&[String], &[String]) {
    let count = words
        .chunks(2)
        .take_while(|pair| pair[0].as_str() == OPTION)
        .count();
    words.split_at(count.saturating_mul(2).min(words.len()))
}

/// Goes to the folder behind each option, from one to the next.
pub fn enter<'a>(rt: &HostRuntime, options: &'a [String]) -> Result<(), FolderFault<'a>> {
    for pair in options.chunks(2) {
        let [_, name] = pair else {
            return Err(FolderFault::Unnamed);
        };
        if let Err(error) = env::set_current_dir(rt, name.as_str()) {
            return Err(FolderFault::Refused {
                name,
                kind: error.kind(),
            });
        }
    }
    Ok(())
}

/// Tells on standard error why a folder isn't gone to. Answers the status to end with.
pub fn tell_folder(rt: &HostRuntime, fault: &FolderFault<'_>) -> ExitCode {
    // What can't be told changes nothing of the status.
    let _ = tell(rt, fault);
    ExitCode::from(match fault {
        FolderFault::Unnamed => WORDS,
        FolderFault::Refused { .. } => ABSENT,
    })
}

fn tell(rt: &HostRuntime, fault: &FolderFault<'_>) -> io::Result<()> {
    match fault {
        FolderFault::Unnamed => eprintln!(rt;
            "zj: {}\n{OPTION} stands before the command, with a folder behind it: zj -C FOLDER COMMAND",
            Fault::Words
        ),
        FolderFault::Refused {
            name,
            kind: ErrorKind::NotFound,
        } => eprintln!(rt; "zj: folder {}: not found", name.escape_debug()),
        FolderFault::Refused { name, kind } => eprintln!(rt;
            "zj: folder {}: {kind}",
            name.escape_debug()
        ),
    }
}
