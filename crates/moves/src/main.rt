// Lists chart files: how many states each has, and the moves of each state, or
// its refusal. The files are named by the arguments; without one, `source.w` is
// read. All files are read before anything is printed.
#![tactic(auto)]

use listing::file_text;
use std::fs::File;
use std::io::Read;
use std::{env, io};
use words::LONGEST;

// The file that is listed where no argument names one.
const DEFAULT: &str = "source.w";

// The bytes of a file, as many as tell whether it is too long.
fn read_file(rt: &HostRuntime, path: &str) -> io::Result<Vec<u8>> {
    let mut bytes = Vec::new(rt.alloc());
    let most = LONGEST * 4 + 1;
    File::open(rt, path)?
        .take(most as u64)
        .read_to_end(&mut bytes)?;
    Ok(bytes)
}

// Adds the listing of the file to the text.
fn add_file(rt: &HostRuntime, text: &mut String, path: &str) -> io::Result<()> {
    let bytes = read_file(rt, path)?;
    let listed = file_text(rt.alloc(), bytes.as_slice())?;
    text.push_str(listed.as_str())?;
    Ok(())
}

// The same; a file that cannot be read or listed is named on standard error.
fn add_named(rt: &HostRuntime, text: &mut String, path: &str) -> io::Result<()> {
    let added = add_file(rt, text, path);
    if let Err(error) = &added {
        eprintln!(rt; "moves: {path}: {error}")?;
    }
    added
}

// The listings of all files that the arguments name.
fn list_files(rt: &HostRuntime) -> io::Result<String> {
    let mut text = String::new(rt.alloc());
    let mut paths = env::args(rt)?.skip(1).peekable();
    if paths.peek().is_none() {
        add_named(rt, &mut text, DEFAULT)?;
    }
    for path in paths {
        add_named(rt, &mut text, path.as_str())?;
    }
    Ok(text)
}

fn main(rt: HostRuntime) -> io::Result<()> {
    let text = list_files(&rt)?;
    rt.print(text.as_str())
}
