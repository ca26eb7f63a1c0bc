//! What calls are made on.
use crate::answer::{Answer, Reply};
use crate::call::Call;
use crate::hook::Request;
use std::alloc::AllocError;

/// What the calls of a text are made on.
pub trait Subject {
    /// Makes what the call is handed, and room to keep what it gives. No hook comes round this. The error is that there
    /// is no memory for it.
    fn prepare(&mut self, call: Call<'_>) -> Result<(), AllocError>;

    /// Makes the call. Where memory is refused, the reply is `NoMemory`, and it can be made again.
    fn make(&mut self, call: Call<'_>) -> Reply;

    /// What the call may ask memory for in the state that it meets.
    fn request(&self, call: Call<'_>) -> Option<Request>;

    /// What has to stand where memory is refused.
    fn shape(&self) -> [usize; 6];

    /// Whether all of that stands after memory was refused to the call, before which the shape was this.
    fn stands(&self, _call: Call<'_>, before: [usize; 6]) -> bool {
        self.shape() == before
    }

    /// Adds what the call that was made last gave beside its reply: the tasks that it woke, or the replies of a run.
    fn note(&mut self, answer: &mut Answer) -> Result<(), AllocError>;

    /// What was refused to a call of the run that was made last, and whether all that has to stand does.
    fn refused_within(&self) -> Option<(Request, bool)> {
        None
    }

    /// Makes what a refused call is handed again, if it was used up. Where it is a run whose calls were made, it begins
    /// with a new queue.
    fn prepare_again(&mut self, _call: Call<'_>) -> Result<(), AllocError> {
        Ok(())
    }
}
