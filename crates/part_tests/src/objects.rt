// Each call once.
ghost use Rattle.std.specs.Prelude.{◌+◌, ◌≤◌, vec_capacity, vec_len};

use crate::holding::hold_two;
use crate::shows::shows;
use crate::told::{FILE, with_file};
use std::test::Fail;
use vm_base::{FrameNo, PageKey, PageNo};
use vm_objects::{Holder, Objects, PagerState};

const LAST: PageKey = PageKey {
    object: FILE,
    page: PageNo(2),
};

#[test]
fn referred(rt: HostRuntime) -> Result<(), Fail> {
    let mut objects = with_file(rt.alloc())?;
    objects.refer(FILE);
    objects.refer(FILE);
    shows(&rt, objects.unrefer(FILE) == 1);
    Ok(())
}

#[test]
fn controlled(rt: HostRuntime) -> Result<(), Fail> {
    let mut objects = with_file(rt.alloc())?;
    shows(&rt, objects.begin_control(FILE) == 1);
    objects.set_ready(FILE);
    shows(
        &rt,
        objects
            .find(FILE)
            .is_some_and(|row| row.live && row.state == PagerState::Ready),
    );
    objects.end_control(FILE);
    shows(&rt, objects.begin_control(FILE) == 2);
    Ok(())
}

fn stays(objects: &Objects) -> bool {
    objects.find(FILE).is_some_and(|row| row.cache)
}

#[test]
fn kept(rt: HostRuntime) -> Result<(), Fail> {
    let mut objects = with_file(rt.alloc())?;
    shows(&rt, !stays(&objects));
    objects.set_cache(FILE, true);
    shows(&rt, stays(&objects));
    objects.set_cache(FILE, false);
    shows(&rt, !stays(&objects));
    Ok(())
}

#[test]
fn marked(rt: HostRuntime) -> Result<(), Fail> {
    let mut objects = with_file(rt.alloc())?;
    objects.note_absent(LAST);
    shows(&rt, objects.known_absent(LAST));
    objects.clear_absent(LAST);
    shows(&rt, !objects.known_absent(LAST));
    Ok(())
}

// A holder in memory, whose list has room for so many more frames.
#[derive(Drop)]
struct Pile {
    frames: Vec<FrameNo>,
    room: usize,
    ghost fits: { vec_len frames + room ≤ vec_capacity frames },
}

impl Holder for Pile {
    ghost held = { λ s. s.frames.items };

    ghost room = { λ s. s.room };

    fn hold(&mut self, f: FrameNo) {
        let _ = self.frames.push(f);
        self.room -= 1;
    }
}

#[test]
fn holds(rt: HostRuntime) -> Result<(), Fail> {
    let mut pile = Pile {
        frames: Vec::with_capacity(rt.alloc(), 2)?,
        room: 2,
    };
    hold_two(&mut pile, FrameNo(5), FrameNo(4));
    shows(
        &rt,
        pile.frames.as_slice() == [FrameNo(5), FrameNo(4)].as_slice(),
    );
    Ok(())
}
