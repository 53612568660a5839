// Prints, for each file that is named as an argument, its name on a line and then what `print` prints for it.
#![tactic(auto)]

use std::env::FillError;
use std::rt::{Env, Files};
use std::{fs, io, str};

// A path is text: a name that is none can't be opened.
fn open<R: Files>(rt: &R, name: &[u8]) -> Option<R::File> {
    let path = str::from_utf8(name).ok()?;
    fs::open(rt, path).ok()
}

fn print_named(rt: &(impl Files + Print), name: &[u8]) -> io::Result<()> {
    rt.write_all(name)?;
    rt.write_all(b"\n")?;
    match open(rt, name) {
        Some(mut file) => printer::print_from(&mut file, &mut io::writer(rt)),
        None => rt.write_all(b"no such file\n"),
    }
}

fn main(rt: HostRuntime) -> io::Result<()> {
    for i in 1..usize::MAX {
        let mut name = [0u8; 4096];
        match rt.arg(i, &mut name) {
            Ok(size) => print_named(&rt, &name[..size])?,
            // Longer than any path is: printed as no name, and no file has that.
            Err(FillError::TooLong) => print_named(&rt, b"")?,
            Err(FillError::NotPresent) => return Ok(()),
        }
    }
    Ok(())
}
