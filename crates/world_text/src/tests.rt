mod printing;
mod reading;
mod refusing;

use crate::{ScriptRefused, print_fault, read_bank_text, read_config_text, read_script};
use faim_base::{Bytes, NoMemory};
use std::alloc::Global;

const HOST: &str = "host T 20240102 2400 2400";

const ALPHA: &str = "account 021000021 BANKA001 1000000 0";

const BETA: &str = "account 121042882 BANKB001 0 0";

const BANK: &str = "bank BANKA001 T 20240102";

// What a text is read as.
#[derive(Clone, Copy)]
enum Kind {
    Script,
    Config,
    Bank,
}

// The kinds that begin with a `host` line.
const BOTH: [Kind; 2] = [Kind::Script, Kind::Config];

// Why a text isn't one of its kind, if it isn't.
fn refusal_of(alloc: Global, kind: Kind, text: &[u8]) -> Option<ScriptRefused> {
    match kind {
        Kind::Script => read_script(alloc, text).err(),
        Kind::Config => read_config_text(alloc, text).err(),
        Kind::Bank => read_bank_text(alloc, text).err(),
    }
}

// The line that is told of it; none where the text is one.
fn line_told(alloc: Global, kind: Kind, text: &[u8]) -> Result<Vec<u8>, NoMemory> {
    let mut line = Vec::new(alloc);
    match refusal_of(alloc, kind, text) {
        Some(ScriptRefused::Fault(fault)) => print_fault(alloc, &fault, &mut line)?,
        Some(ScriptRefused::NoMemory) => return Err(NoMemory),
        None => {}
    }
    Ok(line)
}

// Lines, each ended by LF.
fn text_of(alloc: Global, lines: &[&str]) -> Result<Bytes, NoMemory> {
    let mut text = Bytes::new(alloc);
    add_lines(&mut text, lines)?;
    Ok(text)
}

fn add_lines(text: &mut Bytes, lines: &[&str]) -> Result<(), NoMemory> {
    for line in lines {
        text.extend(line.as_bytes())?;
        text.push(b'\n')?;
    }
    Ok(())
}
