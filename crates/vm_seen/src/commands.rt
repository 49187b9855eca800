// Whether commands are the first of others.
ghost use Rattle.std.specs.Prelude.{◌≡◌, ◌↔◌, IsTrue, true};
ghost use Rattle.vm_seen.specs.Behind.{oldest_items};
ghost use Rattle.vm_seen.specs.Same.{is_of_access, is_of_frames, is_of_life, is_of_messages, is_of_ranges};

use crate::same::same_message;
use vm_model::{Command, Commands, Numbered};

// Whether two commands are the same, with the bytes of a message.
fn same_command(a: &Command, b: &Command) -> bool
    ensures { IsTrue result ↔ (a.now ≡ b.now) }
{
    match a {
        Command::Task { .. } => same_task_command(a, b),
        Command::Fork { .. } => same_task_command(a, b),
        Command::Exit { .. } => same_task_command(a, b),
        Command::Allocate { .. } => same_range_command(a, b),
        Command::Map { .. } => same_range_command(a, b),
        Command::Deallocate { .. } => same_range_command(a, b),
        Command::Protect { .. } => same_range_command(a, b),
        Command::Inherit { .. } => same_range_command(a, b),
        Command::Load { .. } => same_access_command(a, b),
        Command::Store { .. } => same_access_command(a, b),
        Command::Copy { .. } => same_access_command(a, b),
        Command::Take { .. } => same_message_command(a, b),
        Command::Settle { .. } => same_message_command(a, b),
        Command::Clean { .. } => same_message_command(a, b),
        Command::Cache { .. } => same_message_command(a, b),
        Command::Say { .. } => same_message_command(a, b),
        Command::Pageout { .. } => same_frame_command(a, b),
        Command::Wire { .. } => same_frame_command(a, b),
        Command::Unwire { .. } => same_frame_command(a, b),
        Command::FailFiles { .. } => same_frame_command(a, b),
        Command::FailPaging { .. } => same_frame_command(a, b),
    }
}

// The same for a task's beginning and its end.
fn same_task_command(a: &Command, b: &Command) -> bool
    ensures same { IsTrue result → a.now ≡ b.now }
    ensures all { is_of_life a.now ≡ true → a.now ≡ b.now → IsTrue result }
{
    match a {
        Command::Task { task, host } =>
            matches!(b, Command::Task { task: t, host: h } if task == t && host == h),
        Command::Fork { task, child } =>
            matches!(b, Command::Fork { task: t, child: c } if task == t && child == c),
        Command::Exit { task } => matches!(b, Command::Exit { task: t } if task == t),
        _ => false,
    }
}

// The same for what changes a range of a task's addresses.
fn same_range_command(a: &Command, b: &Command) -> bool
    ensures same { IsTrue result → a.now ≡ b.now }
    ensures all { is_of_ranges a.now ≡ true → a.now ≡ b.now → IsTrue result }
{
    match a {
        Command::Allocate {
            task,
            address,
            bytes,
        } => {
            matches!(b, Command::Allocate { task: t, address: at, bytes: n } if task == t && address == at && bytes == n)
        }
        Command::Map {
            task,
            address,
            bytes,
            object,
            offset,
        } => {
            matches!(b, Command::Map { task: t, address: at, bytes: n, object: o, offset: p }
                if task == t && address == at && bytes == n && object == o && offset == p)
        }
        Command::Deallocate {
            task,
            address,
            bytes,
        } => {
            matches!(b, Command::Deallocate { task: t, address: at, bytes: n } if task == t && address == at && bytes == n)
        }
        Command::Protect {
            task,
            address,
            bytes,
            prot,
        } => {
            matches!(b, Command::Protect { task: t, address: at, bytes: n, prot: p } if task == t && address == at && bytes == n && prot == p)
        }
        Command::Inherit {
            task,
            address,
            bytes,
            inherit,
        } => {
            matches!(b, Command::Inherit { task: t, address: at, bytes: n, inherit: i } if task == t && address == at && bytes == n && inherit == i)
        }
        _ => false,
    }
}

// The same for loads, stores and copies.
fn same_access_command(a: &Command, b: &Command) -> bool
    ensures same { IsTrue result → a.now ≡ b.now }
    ensures all { is_of_access a.now ≡ true → a.now ≡ b.now → IsTrue result }
{
    match a {
        Command::Load {
            task,
            address,
            size,
        } => {
            matches!(b, Command::Load { task: t, address: at, size: n } if task == t && address == at && size == n)
        }
        Command::Store {
            task,
            address,
            size,
            value,
        } => {
            matches!(b, Command::Store { task: t, address: at, size: n, value: v } if task == t && address == at && size == n && value == v)
        }
        Command::Copy {
            task,
            address,
            bytes,
            target,
            to,
        } => {
            matches!(b, Command::Copy { task: t, address: at, bytes: n, target: r, to: o }
                if task == t && address == at && bytes == n && target == r && to == o)
        }
        _ => false,
    }
}

// The same for messages that are sent or taken.
fn same_message_command(a: &Command, b: &Command) -> bool
    ensures same { IsTrue result → a.now ≡ b.now }
    ensures all { is_of_messages a.now ≡ true → a.now ≡ b.now → IsTrue result }
{
    match a {
        Command::Take { channel } => matches!(b, Command::Take { channel: c } if channel == c),
        Command::Settle { count } => matches!(b, Command::Settle { count: n } if count == n),
        Command::Clean {
            object,
            page,
            count,
            flush,
        } => {
            matches!(b, Command::Clean { object: o, page: p, count: n, flush: f } if object == o && page == p && count == n && flush == f)
        }
        Command::Cache { object, cache } =>
            matches!(b, Command::Cache { object: o, cache: c } if object == o && cache == c),
        Command::Say {
            host,
            object,
            message,
        } => {
            matches!(b, Command::Say { host: h, object: o, message: m } if host == h && object == o && same_message(message, m))
        }
        _ => false,
    }
}

// The same for what takes or gives back frames, and for failures that are to come.
fn same_frame_command(a: &Command, b: &Command) -> bool
    ensures same { IsTrue result → a.now ≡ b.now }
    ensures all { is_of_frames a.now ≡ true → a.now ≡ b.now → IsTrue result }
{
    match a {
        Command::Pageout { host, count } =>
            matches!(b, Command::Pageout { host: h, count: n } if host == h && count == n),
        Command::Wire { host, count } =>
            matches!(b, Command::Wire { host: h, count: n } if host == h && count == n),
        Command::Unwire { host, count } =>
            matches!(b, Command::Unwire { host: h, count: n } if host == h && count == n),
        Command::FailFiles { count } => matches!(b, Command::FailFiles { count: n } if count == n),
        Command::FailPaging { count } =>
            matches!(b, Command::FailPaging { count: n } if count == n),
        _ => false,
    }
}

// Whether two lines of a script are the same.
fn same_numbered(a: &Numbered, b: &Numbered) -> bool
    ensures { IsTrue result ↔ (a.now ≡ b.now) }
{
    a.line == b.line && same_command(&a.command, &b.command)
}

/// Whether these are the first so many commands of others, or all of them where they are fewer.
pub fn same_commands(a: &Commands, b: &Commands, count: u32) -> bool
    ensures { IsTrue result ↔ (a.now.items ≡ oldest_items count b.now.items) }
{
    if a.len() != count.min(b.len()) {
        return false;
    }
    for i in 0..a.len() {
        if !same_numbered(a.at(i), b.at(i)) {
            return false;
        }
    }
    true
}
