//! A list of calls, made on a book one after the other.
ghost use Rattle.std.specs.Prelude.{◌≡◌, MatchResult};
ghost use Rattle.bp_core.specs.Legal.{IsLegal};
ghost use Rattle.bp_core.specs.Calls.{MayMakeAll, AreAnswered, Continues};

use crate::{Answer, Book, Call};
use bp_types::Memory;
use std::alloc::Global;

/// A call, and who makes it.
#[derive(Drop)]
pub struct Made {
    pub caller: u32,
    pub call: Call,
}

/// Makes the calls of a list one after the other, and gives the answer of each, in their order. The one error is
/// `Memory`, for the list of answers, and then none was made.
pub fn make_all(alloc: Global, book: &mut Book, calls: Vec<Made>) -> Result<Vec<Answer>, Memory>
    requires { MayMakeAll book.old calls.items }
    ensures answered { MatchResult result (λ answers. AreAnswered book.old book.new calls.items answers.items)
        (λ memory. book.new ≡ book.old) }
    ensures legal { IsLegal book.new.house book.new.history }
    ensures continues { Continues book.old book.new }
{
    // That the history is legal before the first call, `length` tells.
    let _length = book.length();
    let mut answers = Vec::with_capacity(alloc, calls.len())?;
    for made in calls {
        let answer = book.act(made.caller, made.call);
        answers.push_reserved(answer);
    }
    Ok(answers)
}
