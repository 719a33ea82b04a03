//! Runs each script that lies in its folder, and tells where its replies aren't the expected ones; or,
//! where its first word is `stores`, works the store of one stream, as the words behind it say.
#![tactic(auto)]

mod scripts;
mod stores;

use std::process::ExitCode;
use std::{env, io};

fn main(rt: HostRuntime) -> io::Result<ExitCode> {
    let words = env::args(&rt)?.skip(1).collect::<Vec<String>>(rt.alloc())?;
    match words.get(0) {
        Some(word) if word.as_str() == "stores" => stores::run(&rt, &words),
        _ => scripts::run(&rt),
    }
}
