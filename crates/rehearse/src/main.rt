// Plays a script with a boss and helpers in memory: `rehearse [FILE]`.
#![tactic(auto)]

use anyhow::anyhow;
use rehearsal::run::run;
use std::io::BufReader;
use std::{env, fs, io};

fn main(rt: HostRuntime) -> anyhow::Result<()> {
    rehearse(&rt)
}

fn rehearse(rt: &HostRuntime) -> anyhow::Result<()> {
    let mut args = env::args(rt)?;
    let _program = args.next();
    let path = args.next();
    if args.next().is_some() {
        return Err(anyhow!("usage: rehearse [FILE]"));
    }
    match path {
        Some(path) => play_file(rt, path.as_str()),
        None => told(
            rt,
            "standard input",
            run(
                rt.alloc(),
                &mut BufReader::new(rt.alloc(), rt.stdin())?,
                &mut rt.stdout(),
            ),
        ),
    }
}

fn play_file(rt: &HostRuntime, path: &str) -> anyhow::Result<()> {
    match fs::open(rt, path) {
        Ok(file) => told(
            rt,
            path,
            run(
                rt.alloc(),
                &mut BufReader::new(rt.alloc(), file)?,
                &mut rt.stdout(),
            ),
        ),
        Err(e) => told(rt, path, Err(e)),
    }
}

// What went wrong, with the name of the script.
fn told(rt: &HostRuntime, script: &str, played: io::Result<()>) -> anyhow::Result<()> {
    match played {
        Ok(()) => Ok(()),
        Err(e) => Err(anyhow!(format!(in rt.alloc(); "{script}: {e}")?)),
    }
}
