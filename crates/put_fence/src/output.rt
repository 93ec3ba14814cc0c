//! What a fence comes to.

use crate::fence::Fence;
use kube_model::PutReply;

/// A request to the API server. What it is about stands in the fence.
#[derive(Clone, Copy)]
pub enum Request {
    /// The Lease is read.
    ReadLease,
    /// The Lease is changed as `Known::asked` says, to be one's own.
    ChangeLease,
    /// The service that the stage fences is read.
    Get,
    /// The service that the stage fences is changed at its version there, in something that nobody
    /// reads.
    Touch,
    /// The services are listed, and the program is started.
    List,
    /// The put of the stage is sent, once, at its version.
    Patch,
}

/// What is to be done now.
#[derive(Clone, Copy)]
pub enum Output {
    /// Nothing: a request is under way, or a tick is awaited.
    Nothing,
    /// This request is to be made.
    Ask { request: Request },
    /// This request, which was made before, is to be made once more, as it was.
    Again { request: Request },
    /// The program hears this of its put.
    Reply { reply: PutReply },
    /// The Lease is another's: the program is to be ended.
    Lost,
    /// There is no Lease. It is waited for, and never made.
    Absent,
    /// This can't be told at this stage, and nothing comes of it.
    Unexpected,
}

/// A fence after it was told something, and what is to be done.
#[derive(Drop)]
pub struct Taken {
    pub fence: Fence,
    pub output: Output,
}
