// The options of a parallel load.

use tq_base::Form;

/// How files are loaded in parallel: at most `limit` events, by 1 to 16 `workers`, one of which is the calling thread.
/// `form` says how times are written.
#[derive(Clone, Copy, PartialEq, Eq, Debug)]
pub struct LoadOptions {
    pub limit: u32,
    pub workers: u32,
    pub form: Form,
}
