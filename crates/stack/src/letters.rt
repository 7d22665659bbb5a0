// The letters that name the words.
ghost use Rattle.stack.specs.Letters.{Names};

use crate::Word;
use thiserror::Error;

// A letter that names no word.
#[derive(Clone, Copy, PartialEq, Eq, Debug, Error)]
#[error("the word is not B, A, N or F")]
pub struct NoWord;

impl TryFrom<char> for Word {
    type Error = NoWord;

    ghost try_from_gives = { Names };

    fn try_from(letter: char) -> Result<Word, NoWord> {
        match letter {
            'B' => Ok(Word::Before),
            'A' => Ok(Word::After),
            'N' => Ok(Word::Nearer),
            'F' => Ok(Word::Farther),
            _ => Err(NoWord),
        }
    }
}
