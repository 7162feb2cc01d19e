//! The answers of one action.

ghost use Rattle.std.specs.Prelude.{◌≡◌, []};

use crate::fixed_list::FixedList;
use crate::number::{MOST_TASKS, TaskId};
use crate::reply::{Answer, Reply};

/// The most answers that an action has, one for each task.
const MOST_ANSWERS: usize = MOST_TASKS as usize;

/// The answers of one action in their order, the caller's first: at most 8, in place. There are
/// never more, since a waiting task's call has no effect and no answer.
pub type Answers = FixedList<Answer, MOST_ANSWERS>;

impl FixedList<Answer, MOST_ANSWERS> {
    /// No answer yet.
    pub fn new() -> Self
        ensures { result ≡ [] }
    {
        FixedList::of(Answer {
            task: TaskId::first(),
            number: 0,
            reply: Reply::Value(0),
        })
    }
}
