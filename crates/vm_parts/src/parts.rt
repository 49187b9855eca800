// The parts of a host.

use vm_base::Buffers;
use vm_frames::Frames;
use vm_objects::Objects;
use vm_queues::PageQueues;
use vm_resident::Resident;

/// What a host has of pages: its frames, the rows of the pages that are resident, the lists of those
/// that are here, what it knows of its memory objects, and page buffers.
///
/// Each part has its own calls; those of the whole keep the parts fitting each other.
#[derive(Drop)]
pub struct HostParts {
    pub frames: Frames,
    pub resident: Resident,
    pub queues: PageQueues,
    pub objects: Objects,
    pub buffers: Buffers,
}
