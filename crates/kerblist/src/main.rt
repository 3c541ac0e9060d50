// Lists the groups at the end of a link file: reads the file from standard input, plays it and prints.
//
// Where the input cannot be read nothing is listed, and standard error says so; it says so too where the listing cannot be
// written. The script `kerblist` makes statuses of that.
#![tactic(auto)]

ghost use Rattle.std.specs.Prelude.{◌≤◌, IfOk, length};

use std::io;
use std::io::{ErrorKind, Read, Write};

// One byte more than the longest link file has tells that a file is too long.
const MOST: usize = 64025;

fn main(rt: HostRuntime) -> io::Result<()> {
    let mut file = [0u8; MOST];
    match read_full(&mut rt.stdin(), &mut file) {
        Ok(bytes) => print_listing(&rt, &file[..bytes]),
        Err(_) => rt
            .stderr()
            .write_all(b"kerblist: standard input cannot be read\n"),
    }
}

// Reads until the input ends or the file is full, and says how many bytes that is.
fn read_full<R: Read>(input: &mut R, file: &mut [u8]) -> io::Result<usize>
    ensures { IfOk result (λ bytes. bytes ≤ length file.new) }
{
    let mut bytes = 0;
    for _ in 0..u64::MAX {
        if bytes == file.len() {
            break;
        }
        match input.read(&mut file[bytes..]) {
            Ok(0) => break,
            Ok(more) => bytes += more,
            Err(error) => {
                if error.kind() != ErrorKind::Interrupted {
                    return Err(error);
                }
            }
        }
    }
    Ok(bytes)
}

fn print_listing(rt: &HostRuntime, file: &[u8]) -> io::Result<()> {
    // An output of 20,480 bytes has room for every listing, so none is refused.
    let mut out = [0u8; 20480];
    let length = listing::list(file, &mut out).unwrap_or(0);
    match rt.stdout().write_all(&out[..length]) {
        Ok(()) => Ok(()),
        Err(_) => rt
            .stderr()
            .write_all(b"kerblist: standard output cannot be written\n"),
    }
}
