// How many callers the system's limit of open files lets in.
ghost use Rattle.std.specs.Prelude.{◌≤◌};

use libc::types::rlimit;
use std::cmp::min;

/// Files beside the callers' connections: the three standard ones, the listener, what waits for all of
/// them, a connection that is accepted to be let go of, and some that a library may open.
const BESIDE: u64 = 16;

/// How many of so many callers may be connected at once, one at the least, where the system lets the
/// program open so many files.
fn fitting(files: u64, callers: u32) -> u32
    requires { 1 ≤ callers }
    ensures least { 1 ≤ result }
    ensures most { result ≤ callers }
{
    let room = files.saturating_sub(BESIDE).max(1);
    match u32::try_from(room) {
        Ok(room) => min(room, callers),
        Err(_) => callers,
    }
}

/// How many files the system lets the program open; none where it doesn't tell.
fn open_files() -> Option<u64> {
    let mut limit = rlimit {
        rlim_cur: 0,
        rlim_max: 0,
    };
    let is_told = libc::getrlimit(libc::RLIMIT_NOFILE, &mut limit) == 0;
    is_told.then_some(limit.rlim_cur)
}

/// How many of so many callers may be connected at once. Where that is fewer, it is told.
pub(crate) fn callers_with_files(rt: &impl Eprint, callers: u32) -> u32
    requires { 1 ≤ callers }
    ensures least { 1 ≤ result }
    ensures most { result ≤ callers }
{
    let Some(files) = open_files() else {
        return callers;
    };
    let fit = fitting(files, callers);
    if fit < callers {
        let _ = eprintln!(rt;
            "cqld: the system lets it open {files} files, so {fit} callers are connected at once"
        );
    }
    fit
}
