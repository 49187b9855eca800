// What the words of a script stand for.

/// The first word of a header line.
#[derive(Clone, Copy, Debug, PartialEq, Eq)]
pub enum HeaderWord {
    Hosts,
    Frames,
    Page,
    Slots,
    File,
    Shared,
    Wild,
}

/// The first word of a command.
#[derive(Clone, Copy, Debug, PartialEq, Eq)]
pub enum CommandWord {
    Task,
    Fork,
    Exit,
    Allocate,
    Map,
    Deallocate,
    Protect,
    Inherit,
    Load,
    Store,
    Copy,
    Take,
    Settle,
    Pageout,
    Clean,
    Cache,
    Wire,
    Unwire,
    Fail,
    Say,
}

/// The word of a message that a script can say.
#[derive(Clone, Copy, Debug, PartialEq, Eq)]
pub enum MessageWord {
    Ready,
    Supply,
    Unavailable,
    Error,
    Lock,
    Attributes,
    Destroy,
}
