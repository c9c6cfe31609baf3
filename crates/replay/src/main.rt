// Reads a script from standard input, carries it out and prints the account.
#![tactic(auto)]

use script::replay_all;
use std::io::{Read, Write};

fn run(rt: &HostRuntime) -> anyhow::Result<()> {
    let mut text = Vec::new(rt.alloc());
    let mut input = rt.stdin();
    input.read_to_end(&mut text)?;
    let account = replay_all(rt.alloc(), text.as_slice())?;
    let mut output = rt.stdout();
    output.write_all(account.as_slice())?;
    Ok(())
}

fn main(rt: HostRuntime) -> anyhow::Result<()> {
    run(&rt)
}
