// The fare table as its users see it: the seven calls of document 01 and the types that they take and hand back.
// Each call's contract is one equation to its definition, and none has a `requires`.
#![tactic(auto)]

pub use beginning::{abandon, begin};
pub use resetting::reset;
pub use stepping::step;
pub use terms::{Answer, Figures, Job, Operation, Out, Report, State};
pub use whole::{figures, list, tidy};
