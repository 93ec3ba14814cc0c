//! Reviews of changes of a configuration (Kubernetes, `AdmissionReview` of `admission.k8s.io/v1`):
//! what is asked, and the line that answers it.
#![tactic(auto)]

mod admitted;
mod operation;
mod response;
mod review;

pub use admitted::read_admitted;
pub use response::{Verdict, response_line, written};
pub use review::{Change, Review, read_review};
