//! One fence, and what it is told.

use anyhow::{Result, bail};
use fence_lines::{output_line, read_input};
use kube_labels::Text;
use kube_model::{Key, Put, PutReply, Record};
use mlb_base::NoMemory;
use put_fence::{Fence, Input, Output, Taken};
use std::alloc::Global;

/// The fence that was started last.
#[derive(Drop)]
pub struct Case {
    alloc: Global,
    fence: Option<Fence>,
}

/// What the program hears.
fn reply_text(alloc: Global, reply: PutReply) -> Result<Text, NoMemory> {
    match reply {
        PutReply::Ok { version } => Ok(Text::from_string(format!(in alloc; "reply ok {version}")?)),
        PutReply::Stale => Text::new(alloc, "reply stale"),
        PutReply::Missing => Text::new(alloc, "reply missing"),
        PutReply::Unknown => Text::new(alloc, "reply unknown"),
    }
}

/// The line that is written, or what the program hears.
fn text_of(alloc: Global, taken: &Taken) -> Result<Text, NoMemory> {
    if let Output::Reply { reply } = taken.output {
        return reply_text(alloc, reply);
    }
    match output_line(alloc, taken)? {
        Some(line) => Ok(line),
        None => Text::new(alloc, "nothing"),
    }
}

/// A put without addresses.
fn put_of(alloc: Global, namespace: &str, name: &str, version: u64) -> Result<Put, NoMemory> {
    Ok(Put {
        key: Key {
            namespace: Text::new(alloc, namespace)?,
            name: Text::new(alloc, name)?,
        },
        version,
        holding: Record::empty(alloc),
    })
}

/// The put of a row.
fn put_in(alloc: Global, row: &str) -> Result<Put> {
    let Some((namespace, rest)) = row.split_once(' ') else {
        bail!("no put");
    };
    let Some((name, version)) = rest.split_once(' ') else {
        bail!("no put");
    };
    let Ok(version) = version.parse::<u64>() else {
        bail!("no put");
    };
    Ok(put_of(alloc, namespace, name, version)?)
}

/// What a row tells.
fn input_in(alloc: Global, row: &str) -> Result<Input> {
    if let Some(("put", rest)) = row.split_once(' ') {
        let put = put_in(alloc, rest)?;
        return Ok(Input::Put { put });
    }
    Ok(read_input(alloc, row.as_bytes())?)
}

impl Case {
    pub fn new(alloc: Global) -> Case {
        Case { alloc, fence: None }
    }

    /// The answer to the row.
    pub fn answer(&mut self, row: &str) -> Result<Text> {
        if let Some(("start", name)) = row.split_once(' ') {
            return self.start(name);
        }
        let Some(fence) = self.fence.take() else {
            bail!("no fence");
        };
        match input_in(self.alloc, row) {
            Ok(input) => self.tell(fence, input),
            Err(fault) => {
                self.fence = Some(fence);
                Err(fault)
            }
        }
    }

    fn start(&mut self, name: &str) -> Result<Text> {
        let name = Text::new(self.alloc, name)?;
        self.goes_on(Fence::start(self.alloc, name))
    }

    fn tell(&mut self, fence: Fence, input: Input) -> Result<Text> {
        let taken = fence.take(self.alloc, input)?;
        self.goes_on(taken)
    }

    fn goes_on(&mut self, taken: Taken) -> Result<Text> {
        let text = text_of(self.alloc, &taken);
        let Taken { fence, output: _ } = taken;
        self.fence = Some(fence);
        Ok(text?)
    }
}
