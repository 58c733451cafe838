// Lists a pool from standard input: its records, and that it is accepted or its first faults; or, if it is refused, the number and the
// place of the refusal. It writes the memory that `pool_listing::list` has filled.
#![tactic(auto)]

ghost use Rattle.std.specs.Prelude.{◌+◌, ◌^◌, ◌≤◌, ◌<◌, ◌≡◌, length, IfOk};
ghost use Rattle.lister.specs.Reading.{input_after};

use pool_listing::LONGEST;
use std::io::{self, ErrorKind, Read, Write};
use std::process::ExitCode;

// A read of the input failed.
#[derive(Clone, Copy)]
struct ReadFailed;

// How many bytes there are after a read that follows n bytes and had room for `room` more, or none if the input has ended. A failed read
// must not be taken for the end of the input: the bytes so far may divide into records and yet not be the whole pool.
fn after_read(n: usize, got: io::Result<usize>, room: usize) -> Result<Option<usize>, ReadFailed>
    requires { n + room < 2 ^ 64 }
    ensures { result ≡ input_after n got room }
{
    match got {
        Ok(0) => Ok(None),
        Ok(k) if k <= room => Ok(Some(n + k)),
        _ => Err(ReadFailed),
    }
}

// Reads to the end of the input or of the buffer, and returns how many bytes there are. How far a read comes is known only when it has
// been made, so no range counts the reads.
fn read_input(rt: &HostRuntime, input: &mut [u8]) -> Result<usize, ReadFailed>
    ensures { IfOk result (λ n. n ≤ length input.old) }
{
    let mut n: usize = 0;
    while n < input.len() {
        let room = input.len() - n;
        let got = rt.stdin().read(&mut input[n..]);
        let Some(more) = after_read(n, got, room)? else {
            return Ok(n);
        };
        n = more;
    }
    Ok(n)
}

// Reports a failure on standard error. If that fails too, there is nobody left to tell.
fn report(rt: &HostRuntime, message: &[u8]) {
    let _ = rt.stderr().write_all(message);
}

// The status of a program that is ended since nobody reads what it writes any more, as a shell gives it.
const UNREAD: u8 = 141;

// Writes a listing to standard output. A write that fails is reported on standard error, but where its reader has stopped reading.
fn write_out(rt: &HostRuntime, listing: &[u8]) -> u8 {
    match rt.stdout().write_all(listing) {
        Ok(()) => 0,
        Err(error) if error.kind() == ErrorKind::BrokenPipe => UNREAD,
        Err(_) => {
            report(rt, b"lister: standard output cannot be written\n");
            0
        }
    }
}

fn run(rt: &HostRuntime, input: &mut [u8], out: &mut [u8]) -> u8
    requires { LONGEST ≤ length out.old }
{
    let Ok(n) = read_input(rt, input) else {
        report(rt, b"lister: standard input cannot be read\n");
        return 0;
    };
    let end = pool_listing::list(&input[..n], out);
    write_out(rt, &out[..end])
}

// The input buffer has one byte more than a pool may have, so that too long an input is noticed.
fn main(rt: HostRuntime) -> ExitCode {
    let mut input = [0u8; 65536];
    let mut out = [0u8; LONGEST];
    ExitCode::from(run(&rt, &mut input, &mut out))
}
