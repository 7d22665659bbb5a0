// The board of a descent, and what is done with one word for one pair: judged, its bound put with the trial noted, and taken back.
ghost use Rattle.std.specs.Prelude.{◌≡◌, ◌<◌, true, length, slice_index_or};
ghost use Rattle.boxes.specs.Order.{no_trial};
ghost use Rattle.trials.specs.Trials.{Node, PickedBelow, ToldWord, entry_of};
ghost use Rattle.trials.specs.Boards.{BackedUp, NoWords, Entered, Fits, ImpliedAt, OnLoan, Open, Placed, Ready, Reopened};

use crate::picker::pick;
use crate::trying::{implied, newest_off, note, weigh};
use axis::Axis;
use boxes::{Entry, Place, Size, lay_out};
use moves::{Axes, Standing};
use stack::{Stack, StackFault, Trial, Word};

// Boxes of these sizes on two axes, their trials, and the trials that got a word so far, the newest last.
// The trail is lent like the rest: of a board that owns it, what its lenders have afterwards was not proved.
#[derive(Drop)]
pub struct Board<'a, 't, T: Axis, P: Axis> {
    axes: &'a mut Axes<T, P>,
    sizes: &'a [Size],
    places: &'a mut [Place],
    trials: &'a mut [Trial],
    trail: &'a mut Stack<'t, Trial>,
    tries: u64,
}

impl<'a, 't, T: Axis, P: Axis> Board<'a, 't, T, P> {
    // How many words were put.
    pub fn tries(&self) -> u64
        ensures { result ≡ self.now.tries }
    {
        self.tries
    }

    // No pair has a word yet, and none was put.
    pub fn new(
        axes: &'a mut Axes<T, P>,
        sizes: &'a [Size],
        places: &'a mut [Place],
        trials: &'a mut [Trial],
        trail: &'a mut Stack<'t, Trial>,
    ) -> Board<'a, 't, T, P>
        requires fits { Fits axes.old sizes.now places.old trials.old }
        requires trail { NoWords trail.old }
        ensures ready { Ready T.Axis.MOST P.Axis.MOST result }
        ensures lent { OnLoan axes.entry places.entry trials.entry trail.entry result }
        ensures axes { result.axes.now ≡ axes.old }
        ensures sizes { result.sizes.now ≡ sizes.now }
        ensures places { result.places.now ≡ places.old }
    {
        lay_out(axes.box_count(sizes.len()), trials);
        Board {
            axes,
            sizes,
            places,
            trials,
            trail,
            tries: 0,
        }
    }

    // Which pair to try next.
    pub fn pick(&self) -> Option<usize>
        ensures { PickedBelow (length self.now.trials.now) self.now.trials.now result }
    {
        pick(
            self.axes.time(),
            self.axes.platform(),
            self.sizes,
            self.trials,
        )
    }

    // Takes back the newest trial and its bound.
    pub fn back_up(&mut self) -> Result<(), StackFault>
        ensures { BackedUp self.old self.new result }
    {
        let side = newest_off(self.trail)?;
        let _ = self.axes.back(side);
        Ok(())
    }

    // The bound of the word for trial k, and what is known of it. Kept as a premise: each call has a trial of its own.
    fn weigh(&self, k: usize, word: Word) -> (Entry, Standing)
        requires node { Node self.now.axes.now self.now.sizes.now self.now.trials.now }
        requires within { k < length self.now.trials.now }
        ensures entry { result.0 ≡ entry_of self.now.sizes.now self.now.trials.now k word }
        ensures told { ToldWord self.now.axes.now self.now.sizes.now (slice_index_or self.now.trials.now k no_trial).i (slice_index_or self.now.trials.now k no_trial).j word result.1 }
    {
        weigh(
            self.axes.time(),
            self.axes.platform(),
            self.sizes,
            self.trials,
            k,
            word,
        )
    }

    // Puts the bound of the word for trial k and notes the trial, or tells that no arrangement has the word.
    pub fn enter(&mut self, k: usize, word: Word) -> bool
        requires ready { Ready T.Axis.MOST P.Axis.MOST self.old }
        requires open { Open self.old k }
        ensures { Entered T.Axis.MOST P.Axis.MOST k word self.old self.new result }
    {
        let (entry, standing) = self.weigh(k, word);
        if standing == Standing::Impossible {
            return false;
        }
        self.tries = self.tries.saturating_add(1);
        // Kept a pattern: by is_err() the proof would not know which fault it was.
        if let Err(_) = self.axes.put(entry) {
            return false;
        }
        note(self.trials, self.trail, k, word);
        true
    }

    // A word that holds of every two placements, if there is one.
    pub fn implied(&self, k: usize) -> Option<Word>
        requires node { Node self.now.axes.now self.now.sizes.now self.now.trials.now }
        requires within { k < length self.now.trials.now }
        ensures { ImpliedAt self.now k result }
    {
        implied(
            self.axes.time(),
            self.axes.platform(),
            self.sizes,
            self.trials,
            k,
        )
    }

    // Trial k has no word again.
    pub fn reopen(&mut self, k: usize)
        requires { k < length self.old.trials.now }
        ensures { Reopened k self.old self.new }
    {
        self.trials[k].word = None;
    }

    // Each box at its least place under the words so far.
    pub fn place_all(&mut self)
        requires ready { Ready T.Axis.MOST P.Axis.MOST self.old }
        ensures { Placed self.old self.new }
    {
        self.axes.place_all(self.places);
    }
}
