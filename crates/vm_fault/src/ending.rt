// An access ends with a page that is here.
ghost use Rattle.std.specs.Prelude.{◌≡◌, ◌+◌, ◌∷◌, ◌<◌, ◌≤◌, ◌^◌, slice_range};
ghost use Rattle.vm_base.specs.Pages.{IsAccessSize, little_endian};
ghost use Rattle.vm_fault.specs.Faults.{Hits, KeepsPlan, References, WritesPage};
ghost use Rattle.vm_fault.specs.Stops.{IsHere};
ghost use Rattle.vm_frames.specs.Frames.{free, page_in};
ghost use Rattle.vm_model.specs.declared.event.Event.{Event as Told};
ghost use Rattle.vm_model.specs.declared.event.Event.TheVariants as event;
ghost use Rattle.vm_parts.specs.Fits.{Fit};
ghost use Rattle.vm_parts.specs.declared.parts.HostParts.{HostParts as Parts};
ghost use Rattle.vm_queues.specs.Queues.{KeepsPages};
ghost use Rattle.vm_waits.specs.Wants.{IsOfNumber, IsSizedWant, want_size};

use crate::running::Running;
use vm_base::{FrameNo, PageKey};
use vm_model::{Event, Events};
use vm_parts::HostParts;
use vm_waits::Want;

// The access ends with a page that is here, which is referenced by that; its number.
pub fn hit(
    run: Running,
    key: PageKey,
    frame: FrameNo,
    parts: &mut HostParts,
    log: &mut Events,
) -> u64
    requires fit { Fit parts.old }
    requires here { IsHere key frame parts.old }
    requires inside { run.at + want_size parts.old.buffers.size run.want ≤ parts.old.buffers.size }
    requires sized { IsSizedWant parts.old.buffers.size run.want }
    requires number { IsOfNumber run.want }
    requires room { 0 < log.old.room }
    ensures hits { (e : Told) × Hits run.task run.want key frame run.at result e parts.old parts.new × (log.new.items ≡ e ∷ log.old.items) }
    ensures plan { KeepsPlan parts.old parts.new }
    ensures listed { KeepsPages parts.old.queues parts.new.queues }
    ensures free { free parts.new.frames ≡ free parts.old.frames }
    ensures spare { parts.new.resident.spare ≡ parts.old.resident.spare }
    ensures room { log.old.room ≤ log.new.room + 1 }
{
    match run.want {
        Want::Load { size, .. } => load(run, key, frame, size, parts, log),
        Want::Store { size, value, .. } => {
            store(run, key, frame, size, value, parts, log);
            value
        }
        Want::CopyTo { .. } => unreachable!(),
    }
}

// A load ends with the number that it finds.
fn load(
    run: Running,
    key: PageKey,
    frame: FrameNo,
    size: u32,
    parts: &mut HostParts,
    log: &mut Events,
) -> u64
    requires fit { Fit parts.old }
    requires here { IsHere key frame parts.old }
    requires inside { run.at + size ≤ parts.old.buffers.size }
    requires size { IsAccessSize size }
    requires room { 0 < log.old.room }
    ensures value { result ≡ little_endian (slice_range (page_in parts.old.frames frame.0) run.at (run.at + size)) }
    ensures marks { References frame parts.old parts.new }
    ensures told { log.new.items ≡ event.Loaded run.task key.object key.page result ∷ log.old.items }
    ensures room { log.old.room ≤ log.new.room + 1 }
{
    let value = parts.frames.bytes(frame).get(run.at, size);
    parts.queues.touch(frame);
    let _ = log.push(Event::Loaded {
        task: run.task,
        object: key.object,
        page: key.page,
        value,
    });
    value
}

// A store puts its number into the page.
fn store(
    run: Running,
    key: PageKey,
    frame: FrameNo,
    size: u32,
    value: u64,
    parts: &mut HostParts,
    log: &mut Events,
)
    requires fit { Fit parts.old }
    requires here { IsHere key frame parts.old }
    requires inside { run.at + size ≤ parts.old.buffers.size }
    requires size { IsAccessSize size }
    requires value { value < 256 ^ size }
    requires room { 0 < log.old.room }
    ensures writes { (mid : Parts) × WritesPage key frame run.at size value parts.old mid × References frame mid parts.new }
    ensures told { log.new.items ≡ event.Stored run.task key.object key.page run.at size value ∷ log.old.items }
    ensures spare { parts.new.resident.spare ≡ parts.old.resident.spare }
    ensures room { log.old.room ≤ log.new.room + 1 }
{
    parts.write(key, run.at, size, value);
    parts.queues.touch(frame);
    let _ = log.push(Event::Stored {
        task: run.task,
        object: key.object,
        page: key.page,
        at: run.at,
        size,
        value,
    });
}
