//! What a program is given by its process.
ghost use Rattle.std.specs.Prelude.{◌⊎◌, ◌≡◌, IfErr};
ghost use Rattle.kube_model.specs.declared.status.Status.TheVariants.{NoMemory, Usage};

use crate::words::words_given;
use kube_model::Status;
use mlb_edge::{RealFiles, RealSink, RealSource};
use std::io;

/// The words of the command line, the files of the system, and standard input and output.
#[derive(Drop)]
pub struct Given<'a> {
    /// The words after the program's name.
    pub words: Vec<String>,
    pub files: RealFiles<HostRuntime>,
    pub input: RealSource<io::StdinLock<'a>>,
    pub out: RealSink<io::Printer<'a, HostRuntime>>,
}

/// What the process gives to a program that reads files too. `Usage` and `NoMemory` as of
/// `words_given`, and `NoMemory` also where there is none for the files.
pub fn given_by(rt: &HostRuntime) -> Result<Given<'_>, Status>
    ensures { IfErr result (λ status. (status ≡ NoMemory) ⊎ (status ≡ Usage)) }
{
    let words = words_given(rt)?;
    let Ok(owned) = rt.clone() else {
        return Err(Status::NoMemory);
    };
    Ok(Given {
        words,
        files: RealFiles::new(owned, rt.alloc()),
        input: RealSource::new(rt.reader()),
        out: RealSink::new(io::writer(rt)),
    })
}
