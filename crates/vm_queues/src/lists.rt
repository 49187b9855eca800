// The two lists and the marks, and the moves between the lists.
ghost use Rattle.std.specs.Prelude.{◌≡◌, ◌<◌, ◌++◌, ℕ, [], Bool, List, true, false, IfOk, length};
ghost use Rattle.vm_queues.specs.Queues.{balanced, first_left, is_skipped, needs_none, one_spared, spared, with_deactivated};
ghost use Rattle.vm_queues.specs.Kept.{ArePageLists, FramesAreApart, all_frames, frame_lists, frames_except, frames_on, front_referenced, page_lists, pages};
ghost use Rattle.vm_queues.specs.Kept.{with_active, with_inactive};

use crate::link::{Link, OnList};
use crate::links::{Ends, neither, no_ends, push, unlink};
use crate::sparing::Spares;
use std::alloc::Global;
use vm_base::{FrameNo, NoMemory};

/// The links and the marks of the frames, and the ends of the two lists.
#[derive(Drop)]
pub struct Lists {
    // By frame.
    pub links: Vec<Link>,
    // By frame; it means something for the frames on a list alone.
    pub marks: Vec<bool>,
    pub active: Ends,
    pub inactive: Ends,
}

/// Empty lists for so many frames, so that no later call takes memory; it fails for want of it.
pub fn empty(alloc: Global, frames: u32) -> Result<Lists, NoMemory>
    ensures kept { IfOk result (λ lists. ArePageLists lists) }
    ensures seen { IfOk result (λ lists. page_lists lists ≡ record { active = []; inactive = []; frames = frames }) }
{
    let links = vec![in alloc; neither(); frames as usize]?;
    let marks = vec![in alloc; false; frames as usize]?;
    Ok(Lists {
        links,
        marks,
        active: no_ends(),
        inactive: no_ends(),
    })
}

/// Puts a frame that is on neither list at the active back, not referenced.
pub fn put_active(lists: &mut Lists, f: FrameNo)
    requires kept { ArePageLists lists.old }
    requires inside { f.0 < length lists.old.marks.items }
    requires absent { is_skipped (all_frames (frame_lists lists.old)) f.0 ≡ false }
    ensures kept { ArePageLists lists.new }
    ensures frames { frame_lists lists.new ≡ with_active f (frame_lists lists.old) }
{
    lists.marks[f.0 as usize] = false;
    push(&mut lists.links, &mut lists.active, OnList::Active, f);
}

// Puts a frame that is on neither list at the inactive back, not referenced.
fn put_inactive(lists: &mut Lists, f: FrameNo)
    requires kept { ArePageLists lists.old }
    requires inside { f.0 < length lists.old.marks.items }
    requires absent { is_skipped (all_frames (frame_lists lists.old)) f.0 ≡ false }
    ensures kept { ArePageLists lists.new }
    ensures frames { frame_lists lists.new ≡ with_inactive f (frame_lists lists.old) }
{
    lists.marks[f.0 as usize] = false;
    push(&mut lists.links, &mut lists.inactive, OnList::Inactive, f);
}

/// Takes a frame off its list.
pub fn take_off(lists: &mut Lists, f: FrameNo)
    requires kept { ArePageLists lists.old }
    requires there { is_skipped (all_frames (frame_lists lists.old)) f.0 ≡ true }
    ensures kept { ArePageLists lists.new }
    ensures frames { frame_lists lists.new ≡ frames_except f.0 (frame_lists lists.old) }
{
    match lists.links[f.0 as usize].list {
        OnList::Active => unlink(&mut lists.links, &mut lists.active, f),
        OnList::Inactive => unlink(&mut lists.links, &mut lists.inactive, f),
        OnList::Neither => {}
    }
}

// Moves the active front to the inactive back, and clears its mark.
fn age(lists: &mut Lists)
    requires kept { ArePageLists lists.old }
    requires some { 0 < lists.old.active.count }
    ensures kept { ArePageLists lists.new }
    ensures moved { page_lists lists.new ≡ with_deactivated 1 (page_lists lists.old) }
{
    if let Some(frame) = lists.active.first {
        take_off(lists, frame);
        put_inactive(lists, frame);
    }
}

// Moves the inactive front to the active back, and clears its mark.
fn spare_front(lists: &mut Lists)
    requires kept { ArePageLists lists.old }
    requires some { front_referenced (page_lists lists.old) ≡ true }
    ensures kept { ArePageLists lists.new }
    ensures spared { page_lists lists.new ≡ one_spared (page_lists lists.old) }
{
    if let Some(frame) = lists.inactive.first {
        take_off(lists, frame);
        put_active(lists, frame);
    }
}

/// Moves active fronts to the inactive back, their marks cleared, as long as three times the
/// inactive frames are fewer than all (this profile).
pub fn balance(lists: &mut Lists)
    requires { ArePageLists lists.old }
    ensures kept { ArePageLists lists.new }
    ensures balanced { page_lists lists.new ≡ balanced (page_lists lists.old) }
    ensures done { needs_none (page_lists lists.new) }
{
    'balance: while 3 * lists.inactive.count < lists.active.count + lists.inactive.count {
        age(lists);
    }
}

// Whether the inactive front is referenced.
fn is_front_referenced(lists: &Lists) -> bool
    requires { ArePageLists lists.now }
    ensures { result ≡ front_referenced (page_lists lists.now) }
{
    match lists.inactive.first {
        Some(frame) => lists.marks[frame.0 as usize],
        None => false,
    }
}

/// Moves referenced inactive fronts to the active back, and balances again behind each.
pub fn spare(lists: &mut Lists)
    requires kept { ArePageLists lists.old }
    requires balanced { needs_none (page_lists lists.old) }
    ensures kept { ArePageLists lists.new }
    ensures spared { page_lists lists.new ≡ spared (page_lists lists.old) }
{
    'spare: while is_front_referenced(lists) {
        spare_front(lists);
        balance(lists);
    }
}

// The first frame of a list that isn't spared.
fn first_left<S: Spares>(links: &[Link], ends: Ends, spared: &S) -> Option<FrameNo>
    requires { FramesAreApart (length links.now) (frames_on links.now ends) }
    ensures { (marks : List Bool) → result ≡ first_left (S.spares spared.now) (pages marks (frames_on links.now ends)) }
{
    let mut at = ends.first;
    'all: for _ in 0..ends.count {
        let Some(frame) = at else {
            return None;
        };
        if !spared.spares(frame) {
            return Some(frame);
        }
        at = links[frame.0 as usize].after;
    }
    None
}

/// The first frame that isn't spared, inactive ones first.
pub fn choose<S: Spares>(lists: &Lists, spared: &S) -> Option<FrameNo>
    requires { ArePageLists lists.now }
    ensures { let queues = page_lists lists.now in result ≡ first_left (S.spares spared.now) (queues.inactive ++ queues.active) }
{
    match first_left(&lists.links, lists.inactive, spared) {
        Some(frame) => Some(frame),
        None => first_left(&lists.links, lists.active, spared),
    }
}
