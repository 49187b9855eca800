// A file of three pages, and its pager.
ghost use Rattle.std.specs.Prelude.{◌≡◌, ◌<◌, IfOk, Some, true, false};
ghost use Rattle.vm_objects.specs.Objects.{object_at};

use std::alloc::Global;
use vm_base::{NoMemory, ObjectId, ObjectKind};
use vm_objects::{Objects, PagerState};

pub const FILE: ObjectId = ObjectId(7);

/// No pager was told of it, and there is room for a mark.
pub fn with_file(alloc: Global) -> Result<Objects, NoMemory>
    ensures file { IfOk result (λ objects. object_at objects 7 ≡ Some record {
      kind = ObjectKind.File;
      pages = 3;
      state = PagerState.Without;
      control = 0;
      live = false;
      cache = false;
      references = 0;
    }) }
    ensures room { IfOk result (λ objects. 0 < objects.marks) }
{
    let mut objects = Objects::new(alloc);
    objects.reserve(1, 1)?;
    objects.make(FILE, ObjectKind::File, 3)?;
    Ok(objects)
}

/// Its pager was told of control 1, and isn't ready.
pub fn with_told_file(alloc: Global) -> Result<Objects, NoMemory>
    ensures { IfOk result (λ objects. object_at objects 7 ≡ Some record {
      kind = ObjectKind.File;
      pages = 3;
      state = PagerState.Sent;
      control = 1;
      live = true;
      cache = false;
      references = 0;
    }) }
{
    let mut objects = with_file(alloc)?;
    let _ = objects.begin_control(FILE);
    Ok(objects)
}
