// What is known of a frame's place on the lists.
use vm_base::FrameNo;

/// The list that a frame is on.
#[derive(Clone, Copy, Debug, PartialEq, Eq)]
pub enum OnList {
    Neither,
    Active,
    Inactive,
}

/// The list that a frame is on, and the frames before and after it there.
#[derive(Clone, Copy, Debug, PartialEq, Eq)]
pub struct Link {
    pub list: OnList,
    pub before: Option<FrameNo>,
    pub after: Option<FrameNo>,
}
