// How a statement is answered.

use tq_base::Form;

/// How a statement over files is answered.
#[derive(Clone, Copy, PartialEq, Eq, Debug)]
pub struct AnswerOptions {
    /// The number of workers, from 1 to 16, one of which is the calling thread.
    pub workers: u32,
    /// How files and statement write instants.
    pub form: Form,
}
