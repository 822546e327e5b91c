//! Files that the programs make.

use std::fs::{File, Files};
use std::io;

/// What is opened in place of a closed standard stream. It can be read, and gives no byte; writes to it fail.
const NULL_DEVICE: &str = "/dev/null";

/// Makes a file, or empties the one that is there.
///
/// A file gets the lowest number that is free. If standard input, output or error is closed, its number is free, and
/// what the program prints there would go to the file. So the numbers 0 to 2 are in use while the file is made.
pub fn create_file<T: Files>(rt: &T, path: &str) -> io::Result<T::File> {
    let _input = File::open(rt, NULL_DEVICE)?;
    let _output = File::open(rt, NULL_DEVICE)?;
    let _errors = File::open(rt, NULL_DEVICE)?;
    File::create(rt, path)
}
