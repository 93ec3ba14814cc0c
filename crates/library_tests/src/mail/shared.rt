//! What goes from thread to thread.

use lane_mail::Mail;
use mlb_base::NoMemory;
use std::rt::HostRuntime;

fn can_be_sent<T: Send>(_value: &T) {}

fn can_be_shared<T: Sync>(_value: &T) {}

#[test]
fn a_mail_is_shared_and_its_passes_are_sent(rt: HostRuntime) -> Result<(), NoMemory> {
    let (mail, first, second, inbox) = Mail::new(rt.alloc())?;
    can_be_shared(&mail);
    can_be_sent(&first);
    can_be_sent(&second);
    can_be_sent(&inbox);
    let done = mail.end(&rt, first);
    can_be_sent(&done);
    drop(done);
    drop(second);
    drop(inbox);
    drop(mail);
    Ok(())
}
