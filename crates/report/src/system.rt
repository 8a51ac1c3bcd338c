// What the program asks of the system: the bytes of sheet.bin and of standard input, and lines written to standard output and standard error.
//
// A call that a signal interrupts is made again, and so is one on a descriptor that does not wait and is not ready yet. A proved loop has to
// end, so the tries are counted from a number that no run uses up.
ghost use Rattle.std.specs.Prelude.{ℕ, ◌≡◌, ◌+◌, ◌-◌, ◌≤◌, ◌<◌, length, take, IfOk};
ghost use Rattle.report.specs.Notices.{size_of};
ghost use Rattle.report.specs.Retries.{KeepsRoom};

use std::io::{Error, ErrorKind, Read, Stderr, Stdin, Stdout, Write};
use std::rt::Files;
use std::{fs, io, thread};

// Why no byte of sheet.bin was read: there is no such file, or it cannot be read.
#[derive(Clone, Copy)]
pub enum NoSheet {
    Missing,
    Unreadable,
}

// Whether a call that failed is to be made again. Where nothing was ready, other programs run first.
fn again(error: &Error) -> bool {
    let kind = error.kind();
    if kind == ErrorKind::WouldBlock {
        thread::yield_now();
        return true;
    }
    kind == ErrorKind::Interrupted
}

// Makes a call as often as it takes. Where each keeps the room that there is and brings no more than that, so does the answer.
fn retry<F: FnMut() -> io::Result<usize>>(mut call: F) -> io::Result<usize>
    requires { F.IsAlwaysCallable call }
    ensures { (room : F → ℕ) → KeepsRoom F.step room → IfOk result (λ n. n ≤ room call) }
{
    for _ in 0..u64::MAX {
        match call() {
            Err(e) if again(&e) => {}
            done => return done,
        }
    }
    Err(Error::from(ErrorKind::TimedOut))
}

// Reads into the bytes from `at` on: how many bytes came, 0 at the end.
fn read_at<R: Read>(from: &mut R, bytes: &mut [u8], at: usize) -> io::Result<usize>
    requires { at ≤ length bytes.old }
    ensures moved { IfOk result (λ n. n ≤ length bytes.old - at) }
    ensures front_same { take at bytes.new ≡ take at bytes.old }
{
    let room = &mut bytes[at..];
    retry(|| from.read(room))
}

// Writes bytes from the front: how many were taken.
fn write_once<W: Write>(to: &mut W, bytes: &[u8]) -> io::Result<usize>
    ensures { IfOk result (λ n. n ≤ length bytes.now) }
{
    retry(|| to.write(bytes))
}

// The bytes of a file, as many as there is room for. The place moves on by what each read brings, so no `for` can count it.
fn read_file<R: Read>(file: &mut R, bytes: &mut [u8]) -> io::Result<usize>
    ensures { IfOk result (λ n. n ≤ length bytes.new) }
{
    let mut n = 0;
    while n < bytes.len() {
        match read_at(file, bytes, n)? {
            0 => break,
            more => n += more,
        }
    }
    Ok(n)
}

// sheet.bin, as much of it as there is room for.
pub fn read_sheet<R: Files>(files: &R, bytes: &mut [u8]) -> Result<usize, NoSheet>
    ensures { IfOk result (λ n. n ≤ length bytes.new) }
{
    let mut file = fs::open(files, "sheet.bin").map_err(|e| match e.kind() {
        ErrorKind::NotFound => NoSheet::Missing,
        _ => NoSheet::Unreadable,
    })?;
    read_file(&mut file, bytes).map_err(|_| NoSheet::Unreadable)
}

// How many bytes the sheet has. One that cannot be read counts as empty.
#[tactic(auto, unfolding(crate::specs::Notices::size_of))]
pub fn size_of(file: Result<usize, NoSheet>) -> usize
    ensures { result ≡ size_of file }
{
    file.unwrap_or(0)
}

// What standard input brings, put into the bytes from `at` on, for which there is room.
pub fn read_input(mut stdin: Stdin, bytes: &mut [u8], at: usize) -> io::Result<usize>
    requires { at < length bytes.old }
    ensures within { IfOk result (λ n. at + n ≤ length bytes.old) }
    ensures front_same { take at bytes.new ≡ take at bytes.old }
{
    read_at(&mut stdin, bytes, at)
}

// Writes all bytes.
fn write_all<W: Write>(to: &mut W, bytes: &[u8]) -> io::Result<()> {
    let mut rest = bytes;
    while !rest.is_empty() {
        match write_once(to, rest)? {
            0 => return Err(Error::from(ErrorKind::WriteZero)),
            n => rest = &rest[n..],
        }
    }
    Ok(())
}

// Writes all bytes to standard output.
pub fn write_output(mut stdout: Stdout, bytes: &[u8]) -> io::Result<()> {
    write_all(&mut stdout, bytes)
}

// Writes all bytes to standard error. Where that cannot be done, nobody is left to be told.
pub fn write_error(mut stderr: Stderr, bytes: &[u8]) {
    let _ = write_all(&mut stderr, bytes);
}
