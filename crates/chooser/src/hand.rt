ghost use Rattle.std.specs.Prelude.{◌≡◌, true};
ghost use Rattle.chooser.specs.Hand.{Passes, hand_from, hand_names, hand_stands};
ghost use Rattle.chooser.specs.Law.{Answers, askable};

use crate::chooser::Chooser;
use crate::counts::Counts;
use crate::question::Question;

// Goes upwards and round, so that every block has its turn, and names the first that has at least the average.
// `next` is the block after the last answer, 0 before the first.
#[derive(Clone, Copy, Default)]
pub struct Hand {
    next: u16,
}

impl Hand {
    // A hand that begins at block 0.
    pub fn new() -> Hand
        ensures { result.next ≡ 0 }
    {
        Hand::default()
    }
}

impl Chooser for Hand {
    fn choose(&mut self, question: Question<'_>) -> u16
        ensures law { Answers question.entry.dead.now self.old result self.new }
        ensures block { result ≡ hand_names question.entry.dead.now self.old.next }
        ensures passes { askable question.entry.dead.now ≡ true → Passes question.entry.dead.now (hand_from question.entry.dead.now self.old.next) }
        ensures stands { self.new.next ≡ hand_stands question.entry.dead.now self.old.next }
    {
        let Some(counts) = Counts::of(question.dead) else {
            return 0;
        };
        let from = if self.next < counts.blocks() {
            self.next
        } else {
            0
        };
        let block = counts.first_round(from);
        self.next = block + 1;
        block
    }
}
