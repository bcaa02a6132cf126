ghost use Rattle.std.specs.Prelude.{◌≡◌, true};
ghost use Rattle.chooser.specs.Counts.{Fullest};
ghost use Rattle.chooser.specs.Law.{Answers, askable};

use crate::chooser::Chooser;
use crate::counts::Counts;
use crate::question::Question;

// Names a block with the most dead pages. Which of several it names is left open.
#[derive(Clone, Copy)]
pub struct Greedy;

impl Chooser for Greedy {
    fn choose(&mut self, question: Question<'_>) -> u16
        ensures law { Answers question.entry.dead.now self.old result self.new }
        ensures most { askable question.entry.dead.now ≡ true → Fullest question.entry.dead.now result }
    {
        Counts::of(question.dead).map_or(0, |counts| counts.fullest())
    }
}
