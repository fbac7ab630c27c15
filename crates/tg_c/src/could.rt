//! A turn of an answer, in the records of C.
ghost use Rattle.tg_c.specs.Could.{TellsTurn, turn_at, turn_told};

use crate::outlook::Outlook;
use crate::records::{RecordOut, numbers_of_turn, turn_out};
use crate::refusal::CallRefusal;
use crate::tell::{DONE, put_numbers};

/// Writes the turn at a place, counted from 0, of the answer. The turn goes to `out`, and as many of its numbers as
/// there is room for go to `numbers`. `BadPlace` is returned exactly if the answer has no turn at the place, and then
/// nothing is written.
pub fn tell_turn(outlook: &Outlook, at: u64, out: &mut RecordOut, numbers: &mut [u64]) -> u32
    ensures { TellsTurn result
        (turn_told out.old numbers.old)
        (turn_told out.new numbers.new) (turn_at at outlook.now.told) }
{
    let turns = outlook.turns();
    if turns.len() as u64 <= at {
        return CallRefusal::BadPlace.status();
    }
    let turn = &turns[at as usize];
    *out = turn_out(turn);
    put_numbers(numbers_of_turn(turn), numbers);
    DONE
}
