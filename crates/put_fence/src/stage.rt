//! How far a bridge is.

use kube_model::Put;

/// Which request for the Lease awaits its answer.
#[derive(Clone, Copy)]
pub enum LeaseCall {
    Idle,
    /// It is read.
    Read,
    /// It is changed as was asked for last.
    Change,
}

/// Which request for a service awaits its answer, where a put is fenced.
#[derive(Clone, Copy)]
pub enum CheckCall {
    /// Its version is read.
    Get,
    /// It is changed at the put's version, in something that nobody reads.
    Touch,
}

/// How far a bridge is. A program that is up has at most one put that it awaits the reply to.
#[derive(Drop)]
pub enum Stage {
    /// It has no program, and doesn't hold the Lease as far as it knows.
    Waiting {
        call: LeaseCall,
    },
    /// It holds the Lease, and fences what the Lease names, from this place on.
    Fencing {
        call: CheckCall,
        next: usize,
    },
    /// What the Lease names is fenced, and the services are being listed. The program is started
    /// with the list.
    Listing,
    /// The program is up, and awaits no reply.
    Free {
        call: LeaseCall,
    },
    /// The program wants this put, which isn't sent.
    Naming {
        put: Put,
        call: LeaseCall,
    },
    /// This put is sent.
    Sent {
        put: Put,
    },
    /// This put was sent and not answered with success: it is fenced. So many tries have come to
    /// nothing.
    Checking {
        put: Put,
        call: CheckCall,
        tries: u8,
    },
    /// The first put that is owed is fenced. The program may want another one, which isn't sent.
    Chasing {
        call: CheckCall,
        put: Option<Put>,
    },
    /// The program is up, nothing is owed, and the services are being listed anew.
    Relisting,
    /// The Lease was seen to be another's. Nothing is sent any more: a program that is started anew
    /// has a bridge with a name of its own.
    Lost,
}
