// The links of the frames, and how a frame is put at the back of a list and taken off one.
ghost use Rattle.std.specs.Prelude.{ℕ, ◌≡◌, ◌<◌, Some, None, length};
ghost use Rattle.vm_queues.specs.Kept.{IsBelow, ends_without, put_link, with_after, with_back, with_before, without_link};
ghost use Rattle.vm_queues.specs.Links.{link_of, neither_link};

use crate::link::{Link, OnList};
use vm_base::FrameNo;

/// The first and the last frame of a list, and how many it has.
#[derive(Clone, Copy)]
pub struct Ends {
    pub first: Option<FrameNo>,
    pub last: Option<FrameNo>,
    pub count: usize,
}

/// The ends of an empty list.
pub fn no_ends() -> Ends
    ensures { result ≡ record { first = None; last = None; count = 0 } }
{
    Ends {
        first: None,
        last: None,
        count: 0,
    }
}

/// The link of a frame on neither list.
pub fn neither() -> Link
    ensures { result ≡ neither_link }
{
    Link {
        list: OnList::Neither,
        before: None,
        after: None,
    }
}

fn set_before(links: &mut [Link], at: Option<FrameNo>, before: Option<FrameNo>)
    requires { IsBelow (length links.old) at }
    ensures links { (f : ℕ) → link_of links.new f ≡ with_before at before (link_of links.old) f }
    ensures count { length links.new ≡ length links.old }
{
    if let Some(frame) = at {
        links[frame.0 as usize].before = before;
    }
}

fn set_after(links: &mut [Link], at: Option<FrameNo>, after: Option<FrameNo>)
    requires { IsBelow (length links.old) at }
    ensures links { (f : ℕ) → link_of links.new f ≡ with_after at after (link_of links.old) f }
    ensures count { length links.new ≡ length links.old }
{
    if let Some(frame) = at {
        links[frame.0 as usize].after = after;
    }
}

/// Puts a frame at the back of a list.
pub fn push(links: &mut [Link], ends: &mut Ends, list: OnList, f: FrameNo)
    requires inside { f.0 < length links.old }
    requires last { IsBelow (length links.old) ends.old.last }
    requires fits { ends.old.count < length links.old }
    ensures links { (g : ℕ) → link_of links.new g ≡ with_after ends.old.last (Some f)
        (put_link f.0 (record { list = list; before = ends.old.last; after = None }) (link_of links.old)) g }
    ensures count { length links.new ≡ length links.old }
    ensures ends { ends.new ≡ with_back f ends.old }
{
    links[f.0 as usize] = Link {
        list,
        before: ends.last,
        after: None,
    };
    set_after(links, ends.last, Some(f));
    if ends.first.is_none() {
        ends.first = Some(f);
    }
    ends.last = Some(f);
    ends.count += 1;
}

/// Takes a frame off its list, whose ends these are.
pub fn unlink(links: &mut [Link], ends: &mut Ends, f: FrameNo)
    requires inside { f.0 < length links.old }
    requires before { IsBelow (length links.old) (link_of links.old f.0).before }
    requires after { IsBelow (length links.old) (link_of links.old f.0).after }
    requires some { 0 < ends.old.count }
    ensures links { (g : ℕ) → link_of links.new g ≡ without_link f.0 (link_of links.old) g }
    ensures count { length links.new ≡ length links.old }
    ensures ends { ends.new ≡ ends_without (link_of links.old f.0) ends.old }
{
    let link = links[f.0 as usize];
    links[f.0 as usize] = neither();
    set_after(links, link.before, link.after);
    set_before(links, link.after, link.before);
    if link.before.is_none() {
        ends.first = link.after;
    }
    if link.after.is_none() {
        ends.last = link.before;
    }
    ends.count -= 1;
}
