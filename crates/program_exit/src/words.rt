//! The words of the command line.
ghost use Rattle.std.specs.Prelude.{◌⊎◌, ◌≡◌, IfErr};
ghost use Rattle.kube_model.specs.declared.status.Status.TheVariants.{NoMemory, Usage};

use kube_model::Status;
use std::rt::Env;
use std::{env, io};

/// The words after the program's name.
///
/// `Usage` says that one isn't UTF-8, and so is no word of any table, `NoMemory` that there is no memory for them.
pub fn words_given(rt: &(impl Env + AllocGlobal)) -> Result<Vec<String>, Status>
    ensures { IfErr result (λ status. (status ≡ NoMemory) ⊎ (status ≡ Usage)) }
{
    match args_given(rt) {
        Ok(words) => Ok(words),
        Err(error) => Err(status_of(&error)),
    }
}

fn args_given(rt: &(impl Env + AllocGlobal)) -> io::Result<Vec<String>> {
    Ok(env::args(rt)?.skip(1).collect(rt.alloc())?)
}

fn status_of(error: &io::Error) -> Status
    ensures { (result ≡ NoMemory) ⊎ (result ≡ Usage) }
{
    match error.kind() {
        io::ErrorKind::OutOfMemory => Status::NoMemory,
        _ => Status::Usage,
    }
}
