// The factors of a basis. With the word `calls` all calls on the factors of drawn matrices are made, and what they say is printed. Else four words name
// what is done (`load`, `factor`, `ftran`, `btran`, `update`, `late_ftran` or `late_btran`), the shape of the basis, its size, and how many times it is
// done, to a basis, 64 columns that may enter and 64 rows of costs. `factor` factors the basis so many times; `ftran` solves each of the columns so many
// times, and `btran` each of the rows; `update` exchanges the columns one after another, and solves each so many times; the late solves come after these
// exchanges. What one time more costs is the cost of the calls alone.
//
// Half of the columns of a `drawn` basis are those of a unit matrix, the others have up to three entries in any rows; a `stair` has them in the rows of
// its period and of the next. A `transport` basis is a tree of arcs from sources to sinks with one logical.
use crate::draws::Checksum;
use crate::factors::draws::Shape;
use crate::factors::work::{Task, Work, run};
use std::alloc::Global;

mod calls;
mod draws;
mod solves;
mod work;

/// What is printed: what the calls say, or what a run came to.
#[derive(Clone, Copy)]
pub(crate) enum Job {
    Calls,
    Task(Task),
}

impl Job {
    /// The run that four words name, where they name all of it.
    pub(crate) fn named(work: &str, shape: &str, size: &str, times: &str) -> Option<Job> {
        Some(Job::Task(Task {
            work: Work::named(work)?,
            shape: Shape::named(shape)?,
            size: size.parse::<u16>().ok()?,
            times: times.parse::<u16>().ok()?,
        }))
    }

    /// What the calls say; or how many updates there were, and a checksum of the solutions. None where a basis is dependent, a
    /// number does not fit, or memory fails.
    pub(crate) fn text(self, alloc: Global) -> Option<String> {
        let task = match self {
            Job::Calls => return calls::text(alloc),
            Job::Task(task) => task,
        };
        let mut checksum = Checksum::new();
        let updates = run(alloc, task, &mut checksum)?;
        let sum = checksum.value();
        format!(in alloc; "{updates} updates, checksum {sum:016x}\n").ok()
    }
}
