// What is done with one word for one pair on two axes that lie apart: judged, its bound put with the trial noted, and taken back.
ghost use Rattle.std.specs.Prelude.{◌≡◌, ℕ, ◌<◌, [], ◌∷◌, ◌++◌, length, None, slice_index_or, slice_set};
ghost use Rattle.stack.specs.declared.elements.Word.TheVariants.{Before};
ghost use Rattle.stack.specs.Stacks.{contents, memory};
ghost use Rattle.boxes.specs.Order.{no_trial};
ghost use Rattle.moves.specs.Meanings.{together};
ghost use Rattle.trials.specs.Trials.{Node, Room, ToldWord, ImpliedWord, Tried, NewestOff, TakenBack, worded, entry_of, nth_word};

use axis::Axis;
use boxes::{Direction, Entry, Size, ruling};
use moves::{Standing, back_on, judge_on, put_on};
use stack::{Stack, StackFault, Trial, Word};

// The words in the order in which they are tried.
pub fn word_at(n: u8) -> Word
    ensures { result ≡ nth_word n }
{
    match n {
        0 => Word::Before,
        1 => Word::After,
        2 => Word::Nearer,
        _ => Word::Farther,
    }
}

// All four.
pub fn words() -> [Word; 4]
    ensures { (n : ℕ) → n < 4 → slice_index_or result n Before ≡ nth_word n }
{
    [word_at(0), word_at(1), word_at(2), word_at(3)]
}

// The bound of the word for trial k, and what is known of it.
pub(crate) fn weigh<T: Axis, P: Axis>(
    time: &T,
    platform: &P,
    sizes: &[Size],
    trials: &[Trial],
    k: usize,
    word: Word,
) -> (Entry, Standing)
    requires node { Node (together (T.Axis.means time.now) (P.Axis.means platform.now)) sizes.now trials.now }
    requires within { k < length trials.now }
    ensures entry { result.0 ≡ entry_of sizes.now trials.now k word }
    ensures told { ToldWord (together (T.Axis.means time.now) (P.Axis.means platform.now)) sizes.now (slice_index_or trials.now k no_trial).i (slice_index_or trials.now k no_trial).j word result.1 }
{
    let pair = trials[k];
    let entry = ruling(sizes, pair.i, pair.j, word);
    (entry, judge_on(time, platform, entry))
}

// A word that holds of every two placements, if there is one.
pub fn implied<T: Axis, P: Axis>(
    time: &T,
    platform: &P,
    sizes: &[Size],
    trials: &[Trial],
    k: usize,
) -> Option<Word>
    requires node { Node (together (T.Axis.means time.now) (P.Axis.means platform.now)) sizes.now trials.now }
    requires within { k < length trials.now }
    ensures { ImpliedWord (together (T.Axis.means time.now) (P.Axis.means platform.now)) sizes.now (slice_index_or trials.now k no_trial).i (slice_index_or trials.now k no_trial).j result }
{
    for word in words() {
        if weigh(time, platform, sizes, trials, k, word).1 == Standing::Implied {
            return Some(word);
        }
    }
    None
}

// Trial k has the word, and its record is on the trail.
pub(crate) fn note(trials: &mut [Trial], trail: &mut Stack<'_, Trial>, k: usize, word: Word)
    requires within { k < length trials.old }
    requires space { length (contents trail.old) < length (memory trail.old) }
    ensures tried { trials.new ≡ slice_set trials.old k (worded trials.old k word) }
    ensures noted { contents trail.new ≡ contents trail.old ++ worded trials.old k word ∷ [] }
    ensures size { length (memory trail.new) ≡ length (memory trail.old) }
{
    let trial = Trial {
        word: Some(word),
        ..trials[k]
    };
    let _ = trail.push(trial);
    trials[k] = trial;
}

// Puts the bound of the word for trial k and notes the trial, or tells that no arrangement has the word.
pub fn enter<T: Axis, P: Axis>(
    time: &mut T,
    platform: &mut P,
    sizes: &[Size],
    trials: &mut [Trial],
    trail: &mut Stack<'_, Trial>,
    tries: &mut u64,
    k: usize,
    word: Word,
) -> bool
    requires node { Node (together (T.Axis.means time.old) (P.Axis.means platform.old)) sizes.now trials.old }
    requires room { Room T.Axis.MOST P.Axis.MOST (together (T.Axis.means time.old) (P.Axis.means platform.old)) (length (contents trail.old)) (length (memory trail.old)) trials.old }
    requires open { (k < length trials.old) × ((slice_index_or trials.old k no_trial).word ≡ None) }
    ensures after { Tried T.Axis.MOST P.Axis.MOST sizes.now trials.old trials.new k word (together (T.Axis.means time.old) (P.Axis.means platform.old)) (together (T.Axis.means time.new) (P.Axis.means platform.new)) (contents trail.old) (contents trail.new) (length (memory trail.new)) result }
    ensures size { length (memory trail.new) ≡ length (memory trail.old) }
{
    let (entry, standing) = weigh(time, platform, sizes, trials, k, word);
    if standing == Standing::Impossible {
        return false;
    }
    *tries = tries.saturating_add(1);
    // Kept a pattern: by is_err() the proof would not know which fault it was.
    if let Err(_) = put_on(time, platform, entry) {
        return false;
    }
    note(trials, trail, k, word);
    true
}

// Takes the newest record off the trail, and tells which axis its word speaks of.
pub(crate) fn newest_off(trail: &mut Stack<'_, Trial>) -> Result<Direction, StackFault>
    ensures after { NewestOff (contents trail.old) (contents trail.new) result }
    ensures size { length (memory trail.new) ≡ length (memory trail.old) }
{
    let trial = trail.pop()?;
    Ok(trial.word.map_or(Direction::Time, Direction::from))
}

// Takes back the newest trial and its bound.
pub fn back_up<T: Axis, P: Axis>(
    time: &mut T,
    platform: &mut P,
    trail: &mut Stack<'_, Trial>,
) -> bool
    ensures after { TakenBack (contents trail.old) (contents trail.new) (together (T.Axis.means time.old) (P.Axis.means platform.old)) (together (T.Axis.means time.new) (P.Axis.means platform.new)) result }
    ensures size { length (memory trail.new) ≡ length (memory trail.old) }
{
    let Ok(side) = newest_off(trail) else {
        return false;
    };
    let _ = back_on(time, platform, side);
    true
}
