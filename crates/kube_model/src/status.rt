//! How a program ends.
ghost use Rattle.std.specs.Prelude.{◌≡◌, ◌++◌, IfOk, codes, decimal, string_bytes};
ghost use Rattle.kube_model.specs.Status.{lane_text, what_text, status_code, status_text};
ghost use Rattle.kube_model.specs.Status.{no_reply_text, is_done};

use crate::key::Key;
use crate::put::Put;
use mlb_base::{ByteList, NoMemory};
use std::alloc::Global;

/// Where lines come from.
#[derive(Clone, Copy)]
pub enum LaneName {
    /// The one input, or that of the replies.
    Input,
    Config,
    Service,
    Watch,
    Frame,
}

/// What has a limit.
#[derive(Clone, Copy)]
pub enum What {
    /// The bytes of a line.
    Line,
    /// The bytes of an input.
    Input,
    /// The services that are held.
    Services,
    /// The nodes that are held.
    Nodes,
}

/// How a program ended. Lines are numbered from 1.
#[derive(Drop)]
pub enum Status {
    Done,
    /// The words of the command line are invalid.
    Usage,
    /// The lane's file can't be opened.
    OpenFault {
        lane: LaneName,
    },
    ReadFault {
        lane: LaneName,
    },
    WriteFault,
    /// The line is no event that may stand in the lane.
    BadLine {
        lane: LaneName,
        number: u64,
        bytes: ByteList,
    },
    /// The line is no reply to the put before it.
    BadReply {
        number: u64,
        bytes: ByteList,
    },
    /// The input ended where a reply to this put was due.
    NoReply {
        put: Put,
    },
    /// More than the limit, up to this count.
    Limit {
        what: What,
        count: u64,
    },
    NoMemory,
}

impl LaneName {
    pub fn as_str(self) -> &'static str
        ensures { result.now ≡ lane_text self }
    {
        match self {
            LaneName::Input => "input",
            LaneName::Config => "config",
            LaneName::Service => "service",
            LaneName::Watch => "watch",
            LaneName::Frame => "frame",
        }
    }
}

impl What {
    pub fn as_str(self) -> &'static str
        ensures { result.now ≡ what_text self }
    {
        match self {
            What::Line => "line",
            What::Input => "input",
            What::Services => "services",
            What::Nodes => "nodes",
        }
    }
}

/// The text itself.
fn plain_text(alloc: Global, text: &str) -> Result<String, NoMemory>
    ensures { IfOk result (λ plain. string_bytes plain ≡ text.now) }
{
    Ok(String::from_str(alloc, text)?)
}

/// The text with the word after it.
fn text_with(alloc: Global, text: &str, word: &str) -> Result<String, NoMemory>
    ensures { IfOk result (λ both. string_bytes both ≡ text.now ++ word.now) }
{
    Ok(format!(in alloc; "{text}{word}")?)
}

fn open_fault_text(alloc: Global, lane: LaneName) -> Result<String, NoMemory>
    ensures { IfOk result (λ text. string_bytes text
        ≡ codes "cannot open the " ++ (lane_text lane ++ codes " lane")) }
{
    let lane = lane.as_str();
    Ok(format!(in alloc; "cannot open the {lane} lane")?)
}

fn bad_line_text(alloc: Global, number: u64, lane: LaneName) -> Result<String, NoMemory>
    ensures { IfOk result (λ text. string_bytes text
        ≡ codes "bad line " ++ (decimal number ++ (codes " on " ++ lane_text lane))) }
{
    let lane = lane.as_str();
    Ok(format!(in alloc; "bad line {number} on {lane}")?)
}

fn bad_reply_text(alloc: Global, number: u64) -> Result<String, NoMemory>
    ensures { IfOk result (λ text. string_bytes text
        ≡ codes "bad reply at line " ++ decimal number) }
{
    Ok(format!(in alloc; "bad reply at line {number}")?)
}

fn no_reply_text(alloc: Global, key: &Key) -> Result<String, NoMemory>
    ensures { IfOk result (λ text. string_bytes text ≡ no_reply_text key.now) }
{
    let namespace = key.namespace.as_str();
    let name = key.name.as_str();
    Ok(format!(in alloc; "no reply to the put of {namespace}/{name}")?)
}

impl Status {
    pub fn is_done(&self) -> bool
        ensures { result ≡ is_done self.now }
    {
        matches!(self, Status::Done)
    }

    /// The program's exit status.
    pub fn code(&self) -> u8
        ensures { result ≡ status_code self.now }
    {
        match self {
            Status::Done => 0,
            Status::Usage => 2,
            Status::OpenFault { .. } => 3,
            Status::ReadFault { .. } => 4,
            Status::WriteFault => 5,
            Status::BadLine { .. } => 6,
            Status::BadReply { .. } => 7,
            Status::NoReply { .. } => 8,
            Status::Limit { .. } => 9,
            Status::NoMemory => 10,
        }
    }

    /// One line without its end; nothing for what is done. Names stand as they are.
    pub fn text(&self, alloc: Global) -> Result<String, NoMemory>
        ensures { IfOk result (λ text. string_bytes text ≡ status_text self.now) }
    {
        match self {
            Status::Done => Ok(String::new(alloc)),
            Status::Usage => plain_text(alloc, "usage error"),
            Status::OpenFault { lane } => open_fault_text(alloc, *lane),
            Status::ReadFault { lane } => text_with(alloc, "read fault on ", lane.as_str()),
            Status::WriteFault => plain_text(alloc, "write fault"),
            Status::BadLine { lane, number, .. } => bad_line_text(alloc, *number, *lane),
            Status::BadReply { number, .. } => bad_reply_text(alloc, *number),
            Status::NoReply { put } => no_reply_text(alloc, &put.key),
            Status::Limit { what, .. } => text_with(alloc, "limit passed: ", what.as_str()),
            Status::NoMemory => plain_text(alloc, "out of memory"),
        }
    }
}
