// The node of an undelivered message.
use vm_base::ChannelId;

/// An undelivered message, linked by keys to others.
///
/// `older` and `newer` are its neighbours in the order of sending, and `next` is the next message of
/// the same channel.
#[derive(Drop)]
pub struct Node<M> {
    pub channel: ChannelId,
    pub message: M,
    pub next: Option<usize>,
    pub older: Option<usize>,
    pub newer: Option<usize>,
}
