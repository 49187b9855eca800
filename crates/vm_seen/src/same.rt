// Whether two events are the same.
ghost use Rattle.std.specs.Prelude.{◌≡◌, ◌≤◌, ◌↔◌, length, IsTrue, true};
ghost use Rattle.vm_seen.specs.Same.{is_begun, is_carrying, is_ended, is_notice, is_of_entries, is_of_pages, is_of_regions, is_of_steps, is_of_tasks, is_order};
ghost use Rattle.vm_seen.specs.Same.{is_wish};
ghost use Rattle.vm_seen.specs.Behind.{oldest_items};

use vm_base::PageBytes;
use vm_model::{Event, History, Message};

fn same_bytes(a: &PageBytes, b: &PageBytes) -> bool
    ensures { IsTrue result ↔ (a.now ≡ b.now) }
{
    a.as_slice() == b.as_slice()
}

// Whether two messages are the same, with their bytes.
pub(crate) fn same_message(a: &Message, b: &Message) -> bool
    ensures { IsTrue result ↔ (a.now ≡ b.now) }
{
    match a {
        Message::Init { .. } => same_notice(a, b),
        Message::Create { .. } => same_notice(a, b),
        Message::Terminate { .. } => same_notice(a, b),
        Message::Ready { .. } => same_notice(a, b),
        Message::Destroy { .. } => same_notice(a, b),
        Message::Unavailable { .. } => same_notice(a, b),
        Message::Error { .. } => same_notice(a, b),
        Message::Request { .. } => same_wish(a, b),
        Message::Unlock { .. } => same_wish(a, b),
        Message::Completed { .. } => same_wish(a, b),
        Message::Return { .. } => same_carrying(a, b),
        Message::Supply { .. } => same_carrying(a, b),
        Message::Lock { .. } => same_order(a, b),
        Message::Attributes { .. } => same_order(a, b),
        Message::Changed { .. } => same_order(a, b),
    }
}

// The same for messages that say one thing of an object or a page.
fn same_notice(a: &Message, b: &Message) -> bool
    ensures same { IsTrue result → a.now ≡ b.now }
    ensures all { is_notice a.now ≡ true → a.now ≡ b.now → IsTrue result }
{
    match a {
        Message::Init { control, size } => {
            matches!(b, Message::Init { control: k, size: n } if control == k && size == n)
        }
        Message::Create { control, size } => {
            matches!(b, Message::Create { control: k, size: n } if control == k && size == n)
        }
        Message::Terminate { control } =>
            matches!(b, Message::Terminate { control: k } if control == k),
        Message::Ready { cache, strategy } => {
            matches!(b, Message::Ready { cache: c, strategy: s } if cache == c && strategy == s)
        }
        Message::Destroy { reason } => matches!(b, Message::Destroy { reason: r } if reason == r),
        Message::Unavailable { page } => matches!(b, Message::Unavailable { page: p } if page == p),
        Message::Error { page, reason } =>
            matches!(b, Message::Error { page: p, reason: r } if page == p && reason == r),
        _ => false,
    }
}

// The same for what a kernel asks or tells of pages.
fn same_wish(a: &Message, b: &Message) -> bool
    ensures same { IsTrue result → a.now ≡ b.now }
    ensures all { is_wish a.now ≡ true → a.now ≡ b.now → IsTrue result }
{
    match a {
        Message::Request {
            control,
            page,
            access,
        } => {
            matches!(b, Message::Request { control: k, page: p, access: x } if control == k && page == p && access == x)
        }
        Message::Unlock {
            control,
            page,
            access,
        } => {
            matches!(b, Message::Unlock { control: k, page: p, access: x } if control == k && page == p && access == x)
        }
        Message::Completed {
            control,
            page,
            count,
        } => {
            matches!(b, Message::Completed { control: k, page: p, count: n } if control == k && page == p && count == n)
        }
        _ => false,
    }
}

// The same for messages that carry a page.
fn same_carrying(a: &Message, b: &Message) -> bool
    ensures same { IsTrue result → a.now ≡ b.now }
    ensures all { is_carrying a.now ≡ true → a.now ≡ b.now → IsTrue result }
{
    match a {
        Message::Return {
            control,
            page,
            dirty,
            keep,
            hex,
        } => {
            matches!(b, Message::Return { control: k, page: p, dirty: d, keep: s, hex: h }
                if control == k && page == p && dirty == d && keep == s && same_bytes(hex, h))
        }
        Message::Supply {
            page,
            lock,
            precious,
            hex,
        } => {
            matches!(b, Message::Supply { page: p, lock: l, precious: c, hex: h } if page == p && lock == l && precious == c && same_bytes(hex, h))
        }
        _ => false,
    }
}

// The same for a pager's orders, and what answers them.
fn same_order(a: &Message, b: &Message) -> bool
    ensures same { IsTrue result → a.now ≡ b.now }
    ensures all { is_order a.now ≡ true → a.now ≡ b.now → IsTrue result }
{
    match a {
        Message::Lock {
            page,
            count,
            returns,
            flush,
            lock,
            reply,
        } => {
            matches!(b, Message::Lock { page: p, count: n, returns: s, flush: f, lock: l, reply: r }
                if page == p && count == n && returns == s && flush == f && lock == l && reply == r)
        }
        Message::Attributes {
            cache,
            strategy,
            reply,
        } => {
            matches!(b, Message::Attributes { cache: c, strategy: s, reply: r } if cache == c && strategy == s && reply == r)
        }
        Message::Changed {
            control,
            cache,
            strategy,
        } => {
            matches!(b, Message::Changed { control: k, cache: c, strategy: s } if control == k && cache == c && strategy == s)
        }
        _ => false,
    }
}

// Whether two events are the same, with the bytes of their messages.
fn same_event(a: &Event, b: &Event) -> bool
    ensures { IsTrue result ↔ (a.now ≡ b.now) }
{
    match a {
        Event::Line { .. } => same_step_event(a, b),
        Event::Refused { .. } => same_step_event(a, b),
        Event::Sent { .. } => same_step_event(a, b),
        Event::Taken { .. } => same_step_event(a, b),
        Event::Wired { .. } => same_step_event(a, b),
        Event::DeviceFailed { .. } => same_step_event(a, b),
        Event::NoSlot { .. } => same_step_event(a, b),
        Event::TaskMade { .. } => same_task_event(a, b),
        Event::TaskEnded { .. } => same_task_event(a, b),
        Event::Entered { .. } => same_task_event(a, b),
        Event::Removed { .. } => same_task_event(a, b),
        Event::Protected { .. } => same_entry_event(a, b),
        Event::Inherited { .. } => same_entry_event(a, b),
        Event::CopyEnded { .. } => same_entry_event(a, b),
        Event::Failed { .. } => same_entry_event(a, b),
        Event::BegunLoad { .. } => same_begun_event(a, b),
        Event::BegunStore { .. } => same_begun_event(a, b),
        Event::BegunCopy { .. } => same_begun_event(a, b),
        Event::Loaded { .. } => same_ended_event(a, b),
        Event::Stored { .. } => same_ended_event(a, b),
        Event::RegionMade { .. } => same_region_event(a, b),
        Event::RegionCopied { .. } => same_region_event(a, b),
        Event::Delayed { .. } => same_region_event(a, b),
        Event::Shadowed { .. } => same_region_event(a, b),
        Event::Unmarked { .. } => same_region_event(a, b),
        Event::Merged { .. } => same_region_event(a, b),
        Event::CopiedPage { .. } => same_region_event(a, b),
        Event::Dropped { .. } => same_page_event(a, b),
        Event::Zeroed { .. } => same_page_event(a, b),
        Event::Raised { .. } => same_page_event(a, b),
    }
}

// The same for what begins a step, for messages, and for what a device or a table lacks.
fn same_step_event(a: &Event, b: &Event) -> bool
    ensures same { IsTrue result → a.now ≡ b.now }
    ensures all { is_of_steps a.now ≡ true → a.now ≡ b.now → IsTrue result }
{
    match a {
        Event::Line { line } => matches!(b, Event::Line { line: n } if line == n),
        Event::Refused { code } => matches!(b, Event::Refused { code: c } if code == c),
        Event::Sent { channel, message } => {
            matches!(b, Event::Sent { channel: c, message: m } if channel == c && same_message(message, m))
        }
        Event::Taken { channel, message } => {
            matches!(b, Event::Taken { channel: c, message: m } if channel == c && same_message(message, m))
        }
        Event::Wired { host, count } =>
            matches!(b, Event::Wired { host: h, count: n } if host == h && count == n),
        Event::DeviceFailed {
            who,
            way,
            object,
            page,
        } => {
            matches!(b, Event::DeviceFailed { who: d, way: w, object: o, page: p } if who == d && way == w && object == o && page == p)
        }
        Event::NoSlot { object, page } =>
            matches!(b, Event::NoSlot { object: o, page: p } if object == o && page == p),
        _ => false,
    }
}

// The same for tasks, and for entries that come or go.
fn same_task_event(a: &Event, b: &Event) -> bool
    ensures same { IsTrue result → a.now ≡ b.now }
    ensures all { is_of_tasks a.now ≡ true → a.now ≡ b.now → IsTrue result }
{
    match a {
        Event::TaskMade { task, host } =>
            matches!(b, Event::TaskMade { task: t, host: h } if task == t && host == h),
        Event::TaskEnded { task } => matches!(b, Event::TaskEnded { task: t } if task == t),
        Event::Entered {
            task,
            address,
            bytes,
            region,
            offset,
            prot,
            inherit,
        } => {
            matches!(b, Event::Entered { task: t, address: at, bytes: n, region: r, offset: o, prot: p, inherit: i }
                if task == t && address == at && bytes == n && region == r && offset == o && prot == p && inherit == i)
        }
        Event::Removed {
            task,
            address,
            bytes,
        } => {
            matches!(b, Event::Removed { task: t, address: at, bytes: n } if task == t && address == at && bytes == n)
        }
        _ => false,
    }
}

// The same for entries that change, and for accesses that fail or copies that end.
fn same_entry_event(a: &Event, b: &Event) -> bool
    ensures same { IsTrue result → a.now ≡ b.now }
    ensures all { is_of_entries a.now ≡ true → a.now ≡ b.now → IsTrue result }
{
    match a {
        Event::Protected {
            task,
            address,
            bytes,
            prot,
        } => {
            matches!(b, Event::Protected { task: t, address: at, bytes: n, prot: p } if task == t && address == at && bytes == n && prot == p)
        }
        Event::Inherited {
            task,
            address,
            bytes,
            inherit,
        } => {
            matches!(b, Event::Inherited { task: t, address: at, bytes: n, inherit: i } if task == t && address == at && bytes == n && inherit == i)
        }
        Event::CopyEnded { task } => matches!(b, Event::CopyEnded { task: t } if task == t),
        Event::Failed { task, object, page } => {
            matches!(b, Event::Failed { task: t, object: o, page: p } if task == t && object == o && page == p)
        }
        _ => false,
    }
}

// The same for accesses that begin.
fn same_begun_event(a: &Event, b: &Event) -> bool
    ensures same { IsTrue result → a.now ≡ b.now }
    ensures all { is_begun a.now ≡ true → a.now ≡ b.now → IsTrue result }
{
    match a {
        Event::BegunLoad {
            task,
            address,
            size,
        } => {
            matches!(b, Event::BegunLoad { task: t, address: at, size: n } if task == t && address == at && size == n)
        }
        Event::BegunStore {
            task,
            address,
            size,
            value,
        } => {
            matches!(b, Event::BegunStore { task: t, address: at, size: n, value: v } if task == t && address == at && size == n && value == v)
        }
        Event::BegunCopy {
            task,
            address,
            bytes,
            to,
        } => {
            matches!(b, Event::BegunCopy { task: t, address: at, bytes: n, to: o } if task == t && address == at && bytes == n && to == o)
        }
        _ => false,
    }
}

// The same for loads and stores that end.
fn same_ended_event(a: &Event, b: &Event) -> bool
    ensures same { IsTrue result → a.now ≡ b.now }
    ensures all { is_ended a.now ≡ true → a.now ≡ b.now → IsTrue result }
{
    match a {
        Event::Loaded {
            task,
            object,
            page,
            value,
        } => {
            matches!(b, Event::Loaded { task: t, object: o, page: p, value: v } if task == t && object == o && page == p && value == v)
        }
        Event::Stored {
            task,
            object,
            page,
            at,
            size,
            value,
        } => {
            matches!(b, Event::Stored { task: t, object: o, page: p, at: i, size: n, value: v }
                if task == t && object == o && page == p && at == i && size == n && value == v)
        }
        _ => false,
    }
}

// The same for regions, for objects, and for pages that are copied.
fn same_region_event(a: &Event, b: &Event) -> bool
    ensures same { IsTrue result → a.now ≡ b.now }
    ensures all { is_of_regions a.now ≡ true → a.now ≡ b.now → IsTrue result }
{
    match a {
        Event::RegionMade {
            region,
            object,
            pages,
        } => {
            matches!(b, Event::RegionMade { region: r, object: o, pages: n } if region == r && object == o && pages == n)
        }
        Event::RegionCopied {
            region,
            source,
            offset,
            pages,
        } => {
            matches!(b, Event::RegionCopied { region: r, source: s, offset: o, pages: n } if region == r && source == s && offset == o && pages == n)
        }
        Event::Delayed {
            region,
            source,
            offset,
            pages,
            copy,
        } => {
            matches!(b, Event::Delayed { region: r, source: s, offset: o, pages: n, copy: c }
                if region == r && source == s && offset == o && pages == n && copy == c)
        }
        Event::Shadowed { region, new, old } => {
            matches!(b, Event::Shadowed { region: r, new: n, old: o } if region == r && new == n && old == o)
        }
        Event::Unmarked { region } => matches!(b, Event::Unmarked { region: r } if region == r),
        Event::Merged { upper, lower } => {
            matches!(b, Event::Merged { upper: u, lower: l } if upper == u && lower == l)
        }
        Event::CopiedPage {
            task,
            page,
            object,
            object_page,
            target,
        } => {
            matches!(b, Event::CopiedPage { task: t, page: p, object: o, object_page: q, target: r }
                if task == t && page == p && object == o && object_page == q && target == r)
        }
        _ => false,
    }
}

// The same for the pages of a host.
fn same_page_event(a: &Event, b: &Event) -> bool
    ensures same { IsTrue result → a.now ≡ b.now }
    ensures all { is_of_pages a.now ≡ true → a.now ≡ b.now → IsTrue result }
{
    match a {
        Event::Dropped { host, object, page } => {
            matches!(b, Event::Dropped { host: h, object: o, page: p } if host == h && object == o && page == p)
        }
        Event::Zeroed { host, object, page } => {
            matches!(b, Event::Zeroed { host: h, object: o, page: p } if host == h && object == o && page == p)
        }
        Event::Raised {
            host,
            lower,
            lower_page,
            upper,
            upper_page,
        } => {
            matches!(b, Event::Raised { host: h, lower: l, lower_page: p, upper: u, upper_page: q }
                if host == h && lower == l && lower_page == p && upper == u && upper_page == q)
        }
        _ => false,
    }
}

/// Whether a history begins with another.
pub fn begins_with(history: &History, start: &History) -> bool
    ensures within { IsTrue result → length start.now.items ≤ length history.now.items }
    ensures same { IsTrue result ↔ (oldest_items (length start.now.items) history.now.items ≡ start.now.items) }
{
    if start.len() > history.len() {
        return false;
    }
    for i in 0..start.len() {
        if !same_event(history.at(i), start.at(i)) {
            return false;
        }
    }
    true
}
