//! A word that is declared under others.

ghost use Rattle.std.specs.Prelude.{◌≡◌, ◌<◌, None, length, IsTrue};
ghost use Rattle.lis_dict.specs.Dict.{number_of};
ghost use Rattle.lis_model.specs.State.{is_declarable};
ghost use Rattle.lis_kept.specs.Sound.{AreSound};
ghost use Rattle.lis_kept.specs.Under.{MayStandUnder, DeclaresUnder};

use crate::metadata::Metadata;
use lis_words::Word;

impl Metadata {
    /// Gives a new word a free number, declares it, and adds an axiom from it to the word of each of these numbers.
    pub fn declare_under(&mut self, word: &Word, places: &[u32])
        requires form { IsTrue (is_declarable word.now) }
        requires new { number_of self.old.dict word.now ≡ None }
        requires room { length self.old.dict.entries < self.old.limits.props }
        requires places { MayStandUnder places.now self.old }
        ensures declares_under { DeclaresUnder word.now places.now self.old self.new }
        ensures sound { AreSound self.new }
    {
        let number = self.declare_word(word);
        for place in places {
            self.link(number, *place);
        }
    }
}
