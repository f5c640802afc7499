// Writing: the object to standard output, or to a file beside OUT that takes OUT's name when it is whole; notes and words to standard error.
ghost use Rattle.std.specs.Prelude.{◌≤◌, length};
ghost use Rattle.header_text.specs.Counts.{IsPrefixLen};
ghost use Rattle.reply.specs.Replies.{InStore};

use delivery::beneath::packets::Passed;
use delivery::beneath::screen::Stop;
use elimination::verdict::Verdict;
use reply::beneath::arguments::Misuse;
use reply::beneath::replying::Reply;
use reply::beneath::rows::Typed;
use reply::beneath::words::Failure;
use reply::beneath::{names, notes, words};
use std::fs::File;
use std::io::{Cursor, Error, ErrorKind, Write};
use std::{fs, io, str};

// Linux's numbers for a name that is taken, and for bytes that are no text.
const EEXIST: i32 = 17;

const EILSEQ: i32 = 84;

// All of the bytes, or why not: the first write that fails, or takes nothing, is the last one. std's write_all would try one again that a signal broke off.
fn write_all<W: Write>(to: &mut W, bytes: &[u8]) -> io::Result<()> {
    let mut done = 0;
    while done < bytes.len() {
        match to.write(&bytes[done..])? {
            0 => return Err(Error::from(ErrorKind::WriteZero)),
            n => done += n,
        }
    }
    Ok(())
}

// To standard error. Where it cannot be written, nobody can be told.
fn say(rt: &HostRuntime, words: &[u8]) {
    let _ = write_all(&mut rt.stderr(), words);
}

pub fn misused(rt: &HostRuntime, why: Misuse) {
    let mut line = [0u8; 200];
    let n = words::misused(&mut line, why);
    say(rt, &line[..n]);
}

// Why a delivery is not taken; t: the numbers of its row.
pub fn stopped(rt: &HostRuntime, why: Stop, t: Typed) {
    let mut line = [0u8; 200];
    let n = words::stopped(&mut line, why, t);
    say(rt, &line[..n]);
}

// How it stands after n packets of its block.
pub fn progress(rt: &HostRuntime, n: u64, v: Verdict) {
    let mut line = [0u8; 200];
    let k = notes::progress(&mut line, n, v);
    say(rt, &line[..k]);
}

pub fn note(rt: &HostRuntime, passed: Passed) {
    let mut lines = [0u8; 200];
    let n = notes::passed(&mut lines, passed);
    say(rt, &lines[..n]);
}

// Where ` (os error N)` begins, which std puts behind the system's word.
fn word_end(text: &[u8]) -> usize
    ensures { IsPrefixLen result text.now }
{
    (0..text.len())
        .find(|&k| text[k..].starts_with(b" (os error "))
        .unwrap_or(text.len())
}

// The system's word for an error, which is shorter than 256 bytes.
fn reason(rt: &HostRuntime, why: Error) {
    let mut text = [0u8; 256];
    let mut rest = &mut text[..];
    let _ = write!(rest, "{why}");
    let n = 256usize.saturating_sub(rest.len());
    let k = word_end(&text[..n]);
    say(rt, &text[..k]);
}

// With the system's reason for the call that failed.
pub fn fail(rt: &HostRuntime, what: Failure, why: Error) {
    let mut line = [0u8; 200];
    let n = words::failed(&mut line, what);
    say(rt, &line[..n]);
    say(rt, b": ");
    reason(rt, why);
    say(rt, b"\n");
}

fn to_output(rt: &HostRuntime, object: &[u8]) {
    if let Err(why) = write_all(&mut rt.stdout(), object) {
        fail(rt, Failure::Output, why);
    }
}

// Whether all of the object is in the file, and on its device. In any case the file is closed.
fn fill(rt: &HostRuntime, mut file: File, object: &[u8]) -> bool {
    if let Err(why) = write_all(&mut file, object) {
        fail(rt, Failure::Writing, why);
        return false;
    }
    if let Err(why) = file.sync_all() {
        fail(rt, Failure::Syncing, why);
        return false;
    }
    true
}

// A name as std takes it: text in UTF-8.
fn path(name: &[u8]) -> io::Result<&str> {
    str::from_utf8(name).map_err(|_| Error::from_raw_os_error(EILSEQ))
}

// A new file, so that none that is there is written to.
fn create(rt: &HostRuntime, name: &[u8]) -> io::Result<File> {
    File::options()
        .write(true)
        .create_new(true)
        .open(rt, path(name)?)
}

fn rename(rt: &HostRuntime, from: &[u8], to: &[u8]) -> io::Result<()> {
    fs::rename(rt, path(from)?, path(to)?)
}

fn remove(rt: &HostRuntime, name: &[u8]) -> io::Result<()> {
    fs::remove_file(rt, path(name)?)
}

fn open_folder(rt: &HostRuntime, out: &[u8]) -> io::Result<File> {
    let k = names::last_part(out);
    if k == 0 {
        return File::open(rt, ".");
    }
    File::open(rt, path(&out[..k])?)
}

// So that the new name is on the device too. Not every file system can do that, and OUT is whole without it: nothing is said where it fails.
fn sync_folder(rt: &HostRuntime, out: &[u8]) {
    if let Ok(folder) = open_folder(rt, out) {
        let _ = folder.sync_all();
    }
}

// Whether the object stands at OUT.
fn put(rt: &HostRuntime, file: File, object: &[u8], name: &[u8], out: &[u8]) -> bool {
    if !fill(rt, file, object) {
        return false;
    }
    if let Err(why) = rename(rt, name, out) {
        fail(rt, Failure::Renaming, why);
        return false;
    }
    sync_folder(rt, out);
    true
}

fn put_or_remove(rt: &HostRuntime, file: File, object: &[u8], name: &[u8], out: &[u8]) {
    if put(rt, file, object, name, out) {
        return;
    }
    if let Err(why) = remove(rt, name) {
        fail(rt, Failure::Removing, why);
    }
}

// With the file of number i. Whether that name was taken, so that the next has to be tried.
fn try_number(rt: &HostRuntime, object: &[u8], out: &[u8], i: u32) -> bool
    requires { length out.now ≤ 4000 }
{
    let mut name = [0u8; 4096];
    let n = names::beside(out, i, &mut name);
    match create(rt, &name[..n]) {
        Ok(file) => {
            put_or_remove(rt, file, object, &name[..n], out);
            false
        }
        Err(why) => {
            if why.raw_os_error() == Some(EEXIST) {
                return true;
            }
            fail(rt, Failure::Making, why);
            false
        }
    }
}

// A run that was killed leaves its file behind: one name after the other is tried, so that it blocks no later run.
fn to_file(rt: &HostRuntime, object: &[u8], out: &[u8])
    requires { length out.now ≤ 4000 }
{
    for i in 0..1000 {
        if !try_number(rt, object, out, i) {
            return;
        }
    }
    fail(rt, Failure::Making, Error::from_raw_os_error(EEXIST));
}

fn write_object(rt: &HostRuntime, object: &[u8], out: &[u8])
    requires { length out.now ≤ 4000 }
{
    if out.is_empty() {
        to_output(rt, object);
    } else {
        to_file(rt, object, out);
    }
}

pub fn write(rt: &HostRuntime, reply: Reply, store: &[u8], out: &[u8])
    requires { InStore reply store.now × (length out.now ≤ 4000) }
{
    match reply {
        Reply::Object(n) => write_object(rt, &store[..n], out),
        Reply::Words(n) => say(rt, &store[..n]),
    }
}
