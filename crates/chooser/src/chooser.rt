ghost use Rattle.chooser.specs.Law.{Answers};

use crate::question::Question;

// A policy that names the block to empty. All that is known of it is the yield law.
// A list that no chooser has to answer is answered 0, and not by nothing: the law says so, and a call cannot fail.
// Every make promises this one clause, by a definition that has a name.
pub trait Chooser {
    fn choose(&mut self, question: Question<'_>) -> u16
        ensures { Answers question.entry.dead.now self.old result self.new };
}
