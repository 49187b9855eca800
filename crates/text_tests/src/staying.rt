// What lines say of objects that stay in memory, and the lines of that kind that say nothing.
use crate::shows::shows;
use std::alloc::Global;
use std::process::Abort;
use std::test::*;
use vm_base::{HostId, ObjectId};
use vm_model::{Command, Message, ScriptFault};
use vm_text::{ScriptError, read_script};

const SAID: &str = "hosts 1 4
file f 8
wild w 8
cache f 1
cache f 0
say 0 w attributes 1 3 0
say 0 w attributes 0 1 1
";

fn is_cache(command: &Command, flag: bool) -> bool {
    match command {
        Command::Cache {
            object: ObjectId(0),
            cache,
        } => *cache == flag,
        _ => false,
    }
}

// The fields of a change of attributes that is said to the wild object.
fn attributes(command: &Command) -> Option<(bool, u32, bool)> {
    match command {
        Command::Say {
            host: HostId(0),
            object: ObjectId(1),
            message: Message::Attributes {
                cache,
                strategy,
                reply,
            },
        } => Some((*cache, *strategy, *reply)),
        _ => None,
    }
}

#[test]
fn said(rt: HostRuntime) -> Result<(), Fail> {
    let script = read_script(rt.alloc(), SAID.as_bytes())
        .ok()
        .ok_or("the script has no fault")?;
    shows(&rt, script.commands.len() == 4);
    if script.commands.len() == 4 {
        shows(&rt, is_cache(&script.commands.at(0).command, true));
        shows(&rt, is_cache(&script.commands.at(1).command, false));
        shows(
            &rt,
            attributes(&script.commands.at(2).command) == Some((true, 3, false)),
        );
        shows(
            &rt,
            attributes(&script.commands.at(3).command) == Some((false, 1, true)),
        );
    }
    Ok(())
}

// What is wrong with a script's third line.
fn fault(alloc: Global, script: &str) -> Option<ScriptFault> {
    match read_script(alloc, script.as_bytes()) {
        Err(ScriptError::Bad { line: 3, kind }) => Some(kind),
        _ => None,
    }
}

fn assert_faults(rt: &impl Abort, alloc: Global, table: &[(&str, ScriptFault)]) {
    for (script, kind) in table {
        shows(rt, fault(alloc, script) == Some(*kind));
    }
}

#[test]
fn no_word_of_a_pager(rt: HostRuntime) {
    let table = [
        ("hosts 1 4\nfile f 8\ncache f\n", ScriptFault::WrongCount),
        (
            "hosts 1 4\nfile f 8\ncache f 1 0\n",
            ScriptFault::WrongCount,
        ),
        ("hosts 1 4\nfile f 8\ncache x 1\n", ScriptFault::UnknownWord),
        ("hosts 1 4\nfile f 8\ncache f x\n", ScriptFault::BadNumber),
        ("hosts 1 4\nfile f 8\ncache f 2\n", ScriptFault::OutOfRange),
    ];
    assert_faults(&rt, rt.alloc(), &table);
}

#[test]
fn no_message(rt: HostRuntime) {
    let table = [
        (
            "hosts 1 4\nwild w 8\nsay 0 w attributes 1 3\n",
            ScriptFault::WrongCount,
        ),
        (
            "hosts 1 4\nwild w 8\nsay 0 x attributes 2 3 0\n",
            ScriptFault::UnknownWord,
        ),
        (
            "hosts 1 4\nwild w 8\nsay 0 w attributes 2 x 0\n",
            ScriptFault::OutOfRange,
        ),
        (
            "hosts 1 4\nwild w 8\nsay 0 w attributes 1 4 x\n",
            ScriptFault::OutOfRange,
        ),
        (
            "hosts 1 4\nwild w 8\nsay 0 w attributes 1 3 x\n",
            ScriptFault::BadNumber,
        ),
        (
            "hosts 1 4\nwild w 8\nsay 0 w destroy\n",
            ScriptFault::WrongCount,
        ),
        (
            "hosts 1 4\nwild w 8\nsay 0 w destroy 5 6\n",
            ScriptFault::WrongCount,
        ),
        (
            "hosts 1 4\nwild w 8\nsay 0 w destroy x\n",
            ScriptFault::BadNumber,
        ),
        (
            "hosts 1 4\nwild w 8\nsay 0 w destroy 4294967296\n",
            ScriptFault::OutOfRange,
        ),
    ];
    assert_faults(&rt, rt.alloc(), &table);
}
