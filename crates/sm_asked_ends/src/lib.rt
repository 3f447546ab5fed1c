// How what is asked ends: what a command came to is printed, and what may then be said of the run.
#![tactic(auto)]

mod printing;

pub use printing::{print, print_stop};
pub use sm_asked;
pub use sm_asked::sm_load;
