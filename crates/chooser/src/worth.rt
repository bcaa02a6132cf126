// What the yield law is good for: a block worth emptying is found.
ghost use Rattle.std.specs.Prelude.{◌≡◌, true};
ghost use Rattle.chooser.specs.Law.{Answers, Worth, askable};

use crate::chooser::Chooser;
use crate::question::Question;

// The block that a chooser names: with s dead pages among n blocks and s > (a - 1) * n, it has at least a of them.
pub fn block_to_empty<C: Chooser>(chooser: &mut C, question: Question<'_>) -> u16
    ensures law { Answers question.entry.dead.now chooser.old result chooser.new }
    ensures worth { askable question.entry.dead.now ≡ true → Worth question.entry.dead.now result }
{
    chooser.choose(question)
}
