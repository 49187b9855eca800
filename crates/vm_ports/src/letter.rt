// What is sent on a channel, and what comes back where a sending fails.
use vm_base::ChannelId;

/// An undelivered message, with the channel that it was sent on.
#[derive(Drop)]
pub struct Letter<M> {
    pub channel: ChannelId,
    pub message: M,
}

/// No memory was there; the message that wasn't sent.
#[derive(Drop)]
pub struct SendBack<M> {
    pub message: M,
}
