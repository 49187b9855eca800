// Stores that wait to push a page of a file are run again where the file gets a newer copy object.
ghost use Rattle.std.specs.Prelude.{ℕ, ◌≡◌, map};
ghost use Rattle.vm_kernel.specs.Freeing.{FreesPushers, pushes_into};
ghost use Rattle.vm_waits.specs.Waits.{EachOnce, entry, is_listed, oldest_row, waits_for_frame, woken};

use crate::parts::Parts;
use vm_base::ObjectId;
use vm_waits::{On, Waiting, Waits};

impl Parts {
    // Each store that waits to push a page of the file is to be run again: it will owe the page to a newer
    // copy object.
    pub fn free_pushers(&mut self, file: ObjectId)
        ensures is { self.new ≡ record self.old { waits = self.new.waits } }
        ensures frees { FreesPushers file.0 self.old.copies self.old.waits self.new.waits }
    {
        let newest = self.copies.newest(file);
        free_each(&mut self.waits, newest);
    }
}

fn free_each(waits: &mut Waits, copy: Option<ObjectId>)
    ensures rows { waits.new.rows ≡ map (woken (pushes_into copy)) waits.old.rows }
    ensures queue { waits.new.queue ≡ waits.old.queue }
    ensures room { waits.new.room ≡ waits.old.room }
{
    'all: while let Some(waiting) = next_freed(waits, copy) {
        waits.set_on(waiting.task, On::Again);
    }
}

// The oldest of these stores; None exactly where there is none.
fn next_freed(waits: &Waits, copy: Option<ObjectId>) -> Option<Waiting>
    ensures oldest { result ≡ oldest_row (pushes_into copy) waits.now.rows }
    ensures once { EachOnce waits.now.rows }
    ensures queue { (t : ℕ) → is_listed t waits.now.queue ≡ waits_for_frame (entry waits.now.rows t) }
{
    let _ = waits.count();
    let rows = waits.rows();
    'all: for waiting in rows {
        if pushes_into(copy, waiting.on) {
            return Some(*waiting);
        }
    }
    None
}

fn pushes_into(copy: Option<ObjectId>, on: On) -> bool
    ensures { result ≡ pushes_into copy on }
{
    match (copy, on) {
        (Some(copy), On::Push { key }) => key.object.0 == copy.0,
        _ => false,
    }
}
