// What a host knows of one memory object.
use vm_base::ObjectKind;

/// How far a host is with the pager of an object.
///
/// The messages are those of "Mach 3 Kernel Interfaces": a pager is told by `memory_object_init`
/// or `memory_object_create`, and says by `memory_object_ready` that it is ready.
#[derive(Clone, Copy, Debug, PartialEq, Eq)]
pub enum PagerState {
    /// No pager yet.
    Without,
    /// It was told of the object, and isn't ready.
    Sent,
    /// Its word that it is ready was taken.
    Ready,
}

/// What a host knows of a memory object.
#[derive(Clone, Copy, Debug, PartialEq, Eq)]
pub struct ObjectRow {
    /// Who keeps the pages.
    pub kind: ObjectKind,
    /// The object's size in pages.
    pub pages: u32,
    pub state: PagerState,
    /// The number of the latest control, 0 where there was none. In this profile the controls of an
    /// object are numbered from 1 on.
    pub control: u32,
    /// Whether the latest control is still in use.
    pub live: bool,
    /// Whether the object stays when its last entry goes, as the live control's pager said by
    /// `memory_object_ready` or `memory_object_change_attributes`.
    pub cache: bool,
    /// How many entries and other holders refer to the object.
    pub references: u32,
}
