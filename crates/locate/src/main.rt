//! Tells where a supercell matrix is filed: its text on standard input, the lattice's place on standard output.
#![tactic(auto)]

use anyhow::anyhow;
use filing::file;
use std::io::Read;

/// One byte more than the longest text, so that a longer one is seen to be too long.
const ENOUGH: u64 = 16385;

fn main(rt: HostRuntime) -> anyhow::Result<()> {
    let mut text = Vec::new(rt.alloc());
    rt.stdin().take(ENOUGH).read_to_end(&mut text)?;
    // A rule of the project: programs take answers apart by `let .. else`, and all but the report leaves here.
    let answer = file(text.as_slice());
    let Ok(Some(filed)) = answer else {
        match answer {
            Err(refusal) => println!(rt; "{refusal}")?,
            Ok(_) => eprintln!(rt;
                "this version files matrices of rank 1; ranks 2 and 3 are to come"
            )?,
        }
        return Err(anyhow!("refused"));
    };
    println!(rt; "{filed}")?;
    Ok(())
}
